//! Selectors that are not yet checked.

use crate::copies::copied;
use kube_labels::{ExpressionList, Labels};
use mlb_base::{NoMemory, Sequence, TryCopy};

/// The parts of a Kubernetes label selector, as they are written.
pub struct SelectorText {
    /// `matchLabels`.
    pub labels: Labels,
    /// `matchExpressions`.
    pub expressions: ExpressionList,
}

impl Drop for SelectorText {
    fn drop(self) {
        let SelectorText {
            labels: _,
            expressions: _,
        } = self;
    }
}

/// A list of selectors that are not yet checked.
pub type SelectorTexts = Sequence<SelectorText>;

impl TryCopy for SelectorText {
    fn copy(&self) -> Result<SelectorText, NoMemory> {
        let (labels, expressions) = copied(&self.labels, &self.expressions)?;
        Ok(SelectorText {
            labels,
            expressions,
        })
    }
}
