//! Why a configuration is refused.
ghost use Rattle.std.specs.Prelude.{◌≡◌};
ghost use Rattle.kube_model.specs.LineWords.{cause_text};

use crate::object::Kind;
use kube_labels::Text;
use mlb_base::{NoMemory, TryCopy};

/// What is wrong with a configuration.
#[derive(Clone, Copy, Debug)]
pub enum Cause {
    /// More pools, entries of a pool or community texts than are held.
    Limit,
    /// An entry of a pool is no range of addresses.
    EntryUnreadable,
    /// A pool has no entry.
    EmptyPool,
    /// Two entries have an address in common.
    Overlap,
    /// A selector is none.
    SelectorUnreadable,
    /// An aggregation length is shorter than a chosen pool's entry allows.
    Aggregation,
    /// Two advertisements give one route two preferences.
    LocalPrefClash,
    /// A community's name isn't defined.
    CommunityUnknown,
    /// A community's value is none.
    CommunityUnreadable,
    /// A community's name is defined twice.
    CommunityTwice,
    /// A peer isn't configured.
    PeerUnknown,
}

impl Cause {
    /// The name that stands for it in lines.
    pub fn as_str(self) -> &'static str
        ensures { result.now ≡ cause_text self }
    {
        match self {
            Cause::Limit => "Limit",
            Cause::EntryUnreadable => "EntryUnreadable",
            Cause::EmptyPool => "EmptyPool",
            Cause::Overlap => "Overlap",
            Cause::SelectorUnreadable => "SelectorUnreadable",
            Cause::Aggregation => "Aggregation",
            Cause::LocalPrefClash => "LocalPrefClash",
            Cause::CommunityUnknown => "CommunityUnknown",
            Cause::CommunityUnreadable => "CommunityUnreadable",
            Cause::CommunityTwice => "CommunityTwice",
            Cause::PeerUnknown => "PeerUnknown",
        }
    }
}

/// What is wrong, and the object that is named for it.
#[derive(Debug)]
pub struct ConfigFault {
    pub cause: Cause,
    pub kind: Kind,
    pub name: Text,
}

impl Drop for ConfigFault {
    fn drop(self) {
        let ConfigFault {
            cause: _,
            kind: _,
            name: _,
        } = self;
    }
}

impl TryCopy for ConfigFault {
    fn copy(&self) -> Result<ConfigFault, NoMemory> {
        Ok(ConfigFault {
            cause: self.cause,
            kind: self.kind,
            name: self.name.copy()?,
        })
    }
}
