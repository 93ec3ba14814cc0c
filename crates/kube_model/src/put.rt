//! What is to be written to a service.

use crate::copies::copied;
use crate::key::Key;
use crate::record::Record;
use mlb_base::{NoMemory, TryCopy};

/// The record that is to take the place of the service's, where the stored version is this one.
#[derive(Drop)]
pub struct Put {
    pub key: Key,
    pub version: u64,
    pub holding: Record,
}

impl TryCopy for Put {
    fn copy(&self) -> Result<Put, NoMemory> {
        let (key, holding) = copied(&self.key, &self.holding)?;
        Ok(Put {
            key,
            version: self.version,
            holding,
        })
    }
}
