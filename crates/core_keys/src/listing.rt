//! Which services are listed.

use crate::keys::{Services, is_unlisted};
use alloc_book::Listing;
use key_queue::KeyTest;
use kube_model::Key;

/// The services that are held and were listed.
#[derive(Drop)]
pub struct Listed<'a> {
    pub services: &'a Services,
}

impl Listing for Listed<'_> {
    ghost use Rattle.std.specs.Prelude.{not};
    ghost use Rattle.core_rules.specs.Take.{is_unlisted};

    ghost lists = { λ listed key. not (is_unlisted listed.services.now key) };

    fn lists(&self, key: &Key) -> bool {
        !is_unlisted(self.services, key)
    }
}

impl KeyTest<Key> for Listed<'_> {
    ghost use Rattle.std.specs.Prelude.{not};
    ghost use Rattle.core_rules.specs.Take.{is_unlisted};

    ghost passes = { λ listed key. not (is_unlisted listed.services.now key) };

    fn passes(&self, key: &Key) -> bool {
        !is_unlisted(self.services, key)
    }
}
