ghost use Rattle.std.specs.Prelude.{◌≡◌, ◌↔◌};
ghost use Rattle.kube_labels.specs.declared.operator.Operator.{Operator};
ghost use Rattle.kube_labels.specs.Operators.{name_of, operator_named};

/// How an expression of a selector tests a key (Kubernetes, "Labels and Selectors", set-based
/// requirement).
#[derive(Clone, Copy, Debug, PartialEq, Eq)]
pub enum Operator {
    /// The key is there with a listed value.
    In,
    /// The key is absent, or its value is not listed.
    NotIn,
    /// The key is there, with any value.
    Exists,
    /// The key is absent.
    DoesNotExist,
}

impl Operator {
    /// The operator of this name, as Kubernetes spells it.
    pub fn named(name: &str) -> Option<Operator>
        ensures value { result ≡ operator_named name.now }
        ensures spelled { (o : Operator) → (result ≡ Some o) ↔ (name.now ≡ name_of o) }
    {
        match name {
            "In" => Some(Operator::In),
            "NotIn" => Some(Operator::NotIn),
            "Exists" => Some(Operator::Exists),
            "DoesNotExist" => Some(Operator::DoesNotExist),
            _ => None,
        }
    }
}
