ghost use Rattle.std.specs.Prelude.{◌≡◌, ◌↔◌, IsTrue, All, is_none};
ghost use Rattle.std.specs.List.{list_all};
ghost use Rattle.kube_labels.specs.Expressions.{fault_of, first_fault, holds_of, IsWellFormed};

use crate::{Labels, Operator, SelectorFault, Text, TextList};
use mlb_base::{NoMemory, Sequence, TryCopy};

/// A set-based requirement on one key (Kubernetes, LabelSelectorRequirement), not yet checked.
#[derive(Debug, PartialEq)]
pub struct Expression {
    pub key: Text,
    pub operator: Text,
    pub values: TextList,
}

impl Drop for Expression {
    fn drop(self) {
        let Expression {
            key: _,
            operator: _,
            values: _,
        } = self;
    }
}

/// A list of expressions.
pub type ExpressionList = Sequence<Expression>;

impl Expression {
    /// What is wrong with the expression, which stands at the index.
    fn fault(&self, index: usize) -> Option<SelectorFault>
        ensures { result ≡ fault_of index self.now }
    {
        let listed = !self.values.is_empty();
        match Operator::named(self.operator.as_str()) {
            None => Some(SelectorFault::UnknownOperator { index }),
            Some(Operator::In | Operator::NotIn) if !listed => {
                Some(SelectorFault::EmptyValues { index })
            }
            Some(Operator::Exists | Operator::DoesNotExist) if listed => {
                Some(SelectorFault::UnwantedValues { index })
            }
            Some(_) => None,
        }
    }

    /// Whether the expression holds of the labels; one of an unknown operator does not.
    fn holds(&self, labels: &Labels) -> bool
        ensures { result ≡ holds_of labels.now self.now }
    {
        let found = labels.get(self.key.as_str());
        let listed = found.is_some_and(|value| self.values.as_slice().contains(value));
        match Operator::named(self.operator.as_str()) {
            None => false,
            Some(Operator::In) => listed,
            Some(Operator::NotIn) => !listed,
            Some(Operator::Exists) => found.is_some(),
            Some(Operator::DoesNotExist) => found.is_none(),
        }
    }
}

/// Whether a selector may have these expressions, which `Selector::new` takes exactly then.
pub fn are_well_formed(expressions: &[Expression]) -> bool
    ensures value { result ≡ is_none (first_fault expressions.now) }
    ensures meaning { IsTrue result ↔ All IsWellFormed expressions.now }
{
    first_fault(expressions).is_none()
}

/// The fault of the first expression at fault.
pub(crate) fn first_fault(expressions: &[Expression]) -> Option<SelectorFault>
    ensures { result ≡ first_fault expressions.now }
{
    for (index, expression) in expressions.iter().enumerate() {
        if let Some(fault) = expression.fault(index) {
            return Some(fault);
        }
    }
    None
}

/// Whether each of the expressions holds of the labels.
pub(crate) fn all_hold(expressions: &[Expression], labels: &Labels) -> bool
    ensures { result ≡ list_all (holds_of labels.now) expressions.now }
{
    expressions
        .iter()
        .all(|expression| expression.holds(labels))
}

impl TryCopy for Expression {
    fn copy(&self) -> Result<Expression, NoMemory> {
        Ok(Expression {
            key: self.key.copy()?,
            operator: self.operator.copy()?,
            values: self.values.copy()?,
        })
    }
}
