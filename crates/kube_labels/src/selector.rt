ghost use Rattle.std.specs.Prelude.{◌≡◌, ◌↔◌, IsTrue, IsOk, All};
ghost use Rattle.kube_labels.specs.declared.fault.SelectorFault.{SelectorFault};
ghost use Rattle.kube_labels.specs.Expressions.{IsWellFormed, IsFirstFault};
ghost use Rattle.kube_labels.specs.Selectors.{selector_of, Matches, matches, any_matches};

use crate::expression::{all_hold, first_fault};
use crate::{ExpressionList, Labels, SelectorFault};
use mlb_base::{NoMemory, Sequence, TryCopy};
use std::marker::Model;

/// A label selector (Kubernetes, LabelSelector), each of whose expressions is well formed.
#[derive(Debug, PartialEq)]
pub struct Selector {
    labels: Labels,
    expressions: ExpressionList,
}

impl Drop for Selector {
    fn drop(self) {
        let Selector {
            labels: _,
            expressions: _,
        } = self;
    }
}

/// A list of selectors.
pub type SelectorList = Sequence<Selector>;

impl Model for Selector {
    ghost use Rattle.std.specs.Prelude.{◌≡◌, None};
    ghost use Rattle.kube_labels.specs.SelectorValue.{SelectorValue};
    ghost use Rattle.kube_labels.specs.Expressions.{first_fault};

    ghost Value = { SelectorValue };

    ghost view = { λ s. record { pairs = s.labels; expressions = s.expressions } };

    ghost inverse = { λ v. record { labels = v.pairs; expressions = v.expressions } };

    ghost invariant = { λ s. first_fault s.expressions ≡ None };
}

impl Selector {
    /// The selector that wants these labels and expressions. It is refused exactly where an
    /// expression is at fault, and the fault is that of the first. It takes no memory.
    pub fn new(labels: Labels, expressions: ExpressionList) -> Result<Selector, SelectorFault>
        ensures value { result ≡ selector_of labels expressions }
        ensures accepted { IsOk result ↔ All IsWellFormed expressions }
        ensures refused { (fault : SelectorFault)
            → (result ≡ Err fault) ↔ IsFirstFault expressions fault }
    {
        match first_fault(expressions.as_slice()) {
            Some(fault) => Err(fault),
            None => Ok(Selector {
                labels,
                expressions,
            }),
        }
    }

    /// Whether each label that is wanted is there, with its value, and each expression holds. The
    /// empty selector matches all. It takes no memory.
    pub fn matches(&self, labels: &Labels) -> bool
        ensures value { result ≡ matches self.now labels.now }
        ensures meaning { IsTrue result ↔ Matches self.now labels.now }
        ensures well_formed { All IsWellFormed self.now.expressions }
    {
        labels.has_all(&self.labels) && all_hold(self.expressions.as_slice(), labels)
    }
}

/// Whether one of the selectors matches the labels; of none, none does.
pub fn any_matches(selectors: &SelectorList, labels: &Labels) -> bool
    ensures { result ≡ any_matches selectors.now labels.now }
{
    selectors
        .as_slice()
        .iter()
        .any(|selector| selector.matches(labels))
}

impl TryCopy for Selector {
    fn copy(&self) -> Result<Selector, NoMemory> {
        Ok(Selector {
            labels: self.labels.copy()?,
            expressions: self.expressions.copy()?,
        })
    }
}
