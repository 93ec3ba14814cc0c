//! The index of claims: who has an address, and under which terms.
//!
//! The flat list of claims that contracts see is in the order in which the claims came. So each
//! claim has a number that is never given again, and the claims stand in a map by these numbers;
//! what finds them by key and by address holds the numbers alone. After 2^64 - 1 claims the book
//! answers NoMemory.
//!
//! A claim is listed at each of its addresses among all claims there. Where it has a sharing key,
//! it is listed besides among those of its sharing key and backend (its group), and among those of
//! each port of its mark within the group: once, also where its record names the address twice. So
//! each list wants room for one claim more, and room for a record is as large as the record.
//! Whether a service with a sharing key may use an address is told without going through the claims
//! there: those of other groups are as many as all less those of its own, and they must be the
//! service's own, which are counted; then those of its group on the service's ports are asked. A
//! service without a sharing key asks the claims one by one, up to the first that isn't its own.
//!
//! A map's entry can't be reserved. So room for a claim is made by entries that are empty still:
//! one for the next number, one for its key, one for each of its addresses in each of its lists,
//! and one for each list; beside them by the number of its group and by capacity of the runs. A
//! claim whose room was made in whole or in part and that isn't taken in leaves these, which costs
//! memory and changes no answer. The lists of a port or group that no claim has any more are
//! dropped.
//!
//! A new claim of a key is taken in first, and the key's older ones are taken out then: so what was
//! reserved isn't dropped between.
//!
//! The addresses that are shared under a sharing key and backend are those in the lists of their
//! group: so a service skips those that are shared for other backends. The text of a group is
//! the mark of the terms without their ports: texts are ordered, a mark is that of one sharing key
//! and backend alone, and it is made once, with the claim and with the terms of the service for
//! which is chosen, so that a look-up takes no memory.
//!
//! A group of which there are claims has a number, and its lists go by this and the port. So the
//! text, which has the whole selector of a service, stands in the index once, however many ports
//! there are, and is looked for once for each change or address. The number is given with the room
//! for the group's first claim, and forgotten once no claim is listed for the group; none is given
//! twice.
#![tactic(auto)]

mod alike;
mod claims;
mod group_numbers;
mod grouped;
mod growth;
mod index;
mod removal;
mod slots;

pub use claims::{Claim, has_address};
pub use grouped::GroupedTerms;
pub use index::ClaimIndex;
