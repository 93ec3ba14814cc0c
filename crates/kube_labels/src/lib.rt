//! Texts, labels, and the selectors that match them.
#![tactic(auto)]

mod expression;
mod fault;
mod labels;
mod operator;
mod selector;
mod text;

pub use expression::{Expression, ExpressionList, are_well_formed};
pub use fault::SelectorFault;
pub use labels::Labels;
pub use operator::Operator;
pub use selector::{Selector, SelectorList, any_matches};
pub use text::{NamedValues, Text, TextList};
