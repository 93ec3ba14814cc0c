//! Kubernetes namespaces.

use crate::copies::copied;
use kube_labels::{Labels, Text};
use mlb_base::{NoMemory, TryCopy};

/// A Kubernetes Namespace.
pub struct Namespace {
    pub name: Text,
    pub labels: Labels,
}

impl Drop for Namespace {
    fn drop(self) {
        let Namespace { name: _, labels: _ } = self;
    }
}

impl TryCopy for Namespace {
    fn copy(&self) -> Result<Namespace, NoMemory> {
        let (name, labels) = copied(&self.name, &self.labels)?;
        Ok(Namespace { name, labels })
    }
}
