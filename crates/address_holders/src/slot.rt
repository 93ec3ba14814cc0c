//! In what claims are listed at an address.
ghost use Rattle.std.specs.Prelude.{◌≡◌};
ghost use Rattle.address_holders.specs.declared.slot.NumberedSlot.TheVariants.{Any};
ghost use Rattle.address_holders.specs.NumberedSlots.{same_slot};

use kube_model::Port;

/// A list of claims that there is at each address, by the number of their group.
#[derive(Clone, Copy, PartialEq, Eq, PartialOrd, Ord)]
pub enum NumberedSlot {
    /// The list of all claims on the address.
    Any,
    /// The list of those of this group.
    OfSharingGroup(u64),
    /// The list of those of this group that have this port.
    OfPort { port: Port, group: u64 },
}

impl NumberedSlot {
    /// Whether it is the list of all claims.
    pub(crate) fn is_any(&self) -> bool
        ensures { result ≡ same_slot self.now Any }
    {
        matches!(self, NumberedSlot::Any)
    }
}
