//! Who has the addresses: by each address the numbers of the claims that have it, in the slots in
//! which they are listed.
#![tactic(auto)]

mod address_holders;
mod claimants;
mod holders;
mod slot;

pub use address_holders::AddressHolders;
pub use slot::NumberedSlot;
