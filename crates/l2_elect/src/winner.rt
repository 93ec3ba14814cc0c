//! The announcer of an address, with its digest.
ghost use Rattle.std.specs.Prelude.{◌≡◌, IfOk};
ghost use Rattle.ip_ranges.specs.AddressText.{canonical_text};
ghost use Rattle.l2_elect.specs.Election.{digest_of};

use crate::election::{Candidate, digest};
use ip_ranges::Address;
use kube_labels::Text;
use mlb_base::{NoMemory, TryCopy};
use std::marker::Model;

/// The name of the node that announces an address, with the digest of both, so that another node
/// costs one hash. Contracts see the name.
pub(crate) struct Winner {
    node: Text,
    // what the digest is of, beside the name
    address: Address,
    digest: [u8; 32],
}

impl Drop for Winner {
    fn drop(self) {
        let Winner {
            node: _,
            address: _,
            digest: _,
        } = self;
    }
}

impl Model for Winner {
    ghost use Rattle.std.specs.Prelude.{◌≡◌, ℕ, List};
    ghost use Rattle.ip_ranges.specs.AddressText.{canonical_text};
    ghost use Rattle.l2_elect.specs.Election.{digest_of};

    ghost Value = { List ℕ };

    ghost view = { λ w. w.node };

    ghost invariant = { λ w. w.digest ≡ digest_of (canonical_text w.address) w.node };
}

impl Winner {
    /// The candidate, as the announcer of this address.
    pub(crate) fn new(address: &Address, candidate: Candidate<'_>) -> Result<Winner, NoMemory>
        requires { candidate.digest ≡ digest_of (canonical_text address.now) candidate.node.now }
        ensures { IfOk result (λ winner. winner ≡ candidate.entry.node.now) }
    {
        Ok(Winner {
            node: candidate.node.copy()?,
            address: *address,
            digest: candidate.digest,
        })
    }

    /// Its name.
    pub(crate) fn node(&self) -> &Text
        ensures { result.now ≡ self.now }
    {
        &self.node
    }

    /// The same as a candidate for an address, which has this text.
    pub(crate) fn candidate(&self, address: &Address, text: &[u8]) -> Candidate<'_>
        requires { text.now ≡ canonical_text address.now }
        ensures node { result.node.now ≡ self.now }
        ensures digest { result.digest ≡ digest_of text.now self.now }
    {
        let digest = if self.address == *address {
            self.digest
        } else {
            digest(&self.node, text)
        };
        Candidate {
            node: &self.node,
            digest,
        }
    }
}
