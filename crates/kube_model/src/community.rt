//! Names of BGP communities.

use crate::copies::copied;
use kube_labels::{NamedValues, Text};
use mlb_base::{NoMemory, TryCopy};

/// A MetalLB Community: `spec.communities`, the names with their values.
pub struct CommunityList {
    pub name: Text,
    pub values: NamedValues,
}

impl Drop for CommunityList {
    fn drop(self) {
        let CommunityList { name: _, values: _ } = self;
    }
}

impl TryCopy for CommunityList {
    fn copy(&self) -> Result<CommunityList, NoMemory> {
        let (name, values) = copied(&self.name, &self.values)?;
        Ok(CommunityList { name, values })
    }
}
