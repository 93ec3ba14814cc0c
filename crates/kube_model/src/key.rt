//! The keys of objects.
ghost use Rattle.std.specs.Prelude.{◌≡◌};

use crate::copies::copied;
use kube_labels::Text;
use mlb_base::{NoMemory, TryCopy};

/// What an object is known by among those of its kind. A kind without namespaces has the empty one.
/// Keys are ordered by namespace, then by name, both in byte order.
#[derive(Debug, PartialEq, Eq, PartialOrd, Ord, Hash)]
pub struct Key {
    pub namespace: Text,
    pub name: Text,
}

impl Drop for Key {
    fn drop(self) {
        let Key {
            namespace: _,
            name: _,
        } = self;
    }
}

impl Key {
    /// The name alone.
    pub fn into_name(self) -> Text
        ensures { result ≡ self.name }
    {
        let Key { namespace: _, name } = self;
        name
    }
}

impl TryCopy for Key {
    fn copy(&self) -> Result<Key, NoMemory> {
        let (namespace, name) = copied(&self.namespace, &self.name)?;
        Ok(Key { namespace, name })
    }
}
