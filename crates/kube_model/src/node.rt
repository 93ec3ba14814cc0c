//! Kubernetes nodes.

use crate::copies::copied;
use kube_labels::{Labels, Text};
use mlb_base::{NoMemory, TryCopy};

/// A Kubernetes Node.
pub struct Node {
    pub name: Text,
    pub labels: Labels,
}

impl Drop for Node {
    fn drop(self) {
        let Node { name: _, labels: _ } = self;
    }
}

impl TryCopy for Node {
    fn copy(&self) -> Result<Node, NoMemory> {
        let (name, labels) = copied(&self.name, &self.labels)?;
        Ok(Node { name, labels })
    }
}
