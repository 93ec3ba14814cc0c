//! The book of claims on addresses, and what is chosen for a service by it.
//!
//! The least usable address of a range is the least of three: one that no claim has and that isn't
//! avoided, a usable one that the service has already, a usable one that claims of its group have.
//! Each is looked for up to the least that was found before it. For the last the addresses of the
//! group on which no claim of it has the service's port are found by counts: a set of addresses
//! knows for each of its runs how many addresses the runs before it have. Those of the group with
//! the port are among those of the group, so the first run of the group that has more addresses
//! than have the port is found by binary search, in O(log² n). Where a run comes, goes or changes,
//! those after it are counted anew, and where addresses come in ascending order there are none.
//!
//! Of several ports each goes on from where the one before it came to. Where now one and now
//! another of them is taken, addresses are still skipped one by one: the next that is in none of
//! two sets is a question of whether sets are disjoint, for which no structure of nearly linear
//! size is known that answers in the logarithm. What is left is tested one by one: also addresses
//! that are refused for another claim there.
#![tactic(auto)]

mod booking;
mod choice;
mod choosing;
mod laws;
mod marked;
mod requests;
mod search;

pub use booking::{Book, Listing};
pub use choice::{Choice, Loss};
pub use claim_index::{Claim, GroupedTerms};
pub use laws::{
    chosen_by_same, chosen_is_granted, chosen_is_one, claims_are_kept, pending_stays,
    terms_are_recorded,
};
