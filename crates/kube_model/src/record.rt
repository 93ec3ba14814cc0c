//! What is recorded of a service's addresses.
ghost use Rattle.std.specs.Prelude.{◌≡◌};

use crate::copies::{both, copied};
use ip_ranges::AddressList;
use kube_labels::Text;
use mlb_base::{NoMemory, Sequence, TryCopy};
use std::alloc::Global;

/// The addresses that a service's status holds, with the pool that they are from and the terms
/// under which they were given. An empty record has no addresses, no pool and no mark.
#[derive(PartialEq)]
pub struct Record {
    /// The addresses of `status.loadBalancer.ingress`, in its order.
    pub addresses: AddressList,
    /// The annotation `metallb.io/ip-allocated-from-pool`, empty where it is absent.
    pub pool: Text,
    /// The annotation `metallb.io/ip-held-as`, empty where it is absent.
    pub mark: Text,
}

impl Drop for Record {
    fn drop(self) {
        let Record {
            addresses: _,
            pool: _,
            mark: _,
        } = self;
    }
}

impl Record {
    ghost use Rattle.kube_model.specs.Records.{empty_record, is_assigned, same_record};

    /// The record without addresses, pool and mark, which takes no memory.
    pub fn empty(alloc: Global) -> Record
        ensures { result ≡ empty_record }
    {
        Record {
            addresses: Sequence::new(alloc),
            pool: Text::from_string(String::new(alloc)),
            mark: Text::from_string(String::new(alloc)),
        }
    }

    /// Whether it has an address.
    pub fn is_assigned(&self) -> bool
        ensures { result ≡ is_assigned self.now }
    {
        !self.addresses.as_slice().is_empty()
    }

    /// Whether the records are one.
    pub fn is_same(&self, other: &Record) -> bool
        ensures { result ≡ same_record self.now other.now }
    {
        self == other
    }
}

impl TryCopy for Record {
    fn copy(&self) -> Result<Record, NoMemory> {
        let texts = copied(&self.pool, &self.mark);
        let (addresses, (pool, mark)) = both(self.addresses.copy(), texts)?;
        Ok(Record {
            addresses,
            pool,
            mark,
        })
    }
}
