//! Distinct keys in the order in which they came: a queue, whose keys are found by their hashes,
//! and a list, of which any is taken out.
//!
//! A queue of keys is two hash sets that keep their order (`indexmap`), seen as the list of its
//! keys. To take the first of such a set moves all after it. So one set has the keys at the front
//! in reverse, and is popped at its end; the other grows at its end. Where the first is empty they
//! are exchanged, and what is then the first is reversed in place, which takes no memory. A key
//! that is taken out between moves those after it in its set: an event drops a queued key only
//! where its service is deleted or wasn't listed.
//!
//! **The hashes of a queue have a fixed seed.** So whoever may choose the names of services can
//! choose such whose hashes collide, and each look-up in the queue then goes through as many keys
//! as do. It costs time alone. The kit's RandomState draws a seed from the system, which `main`
//! would have to hand through each core and each world.
//!
//! Any of the keys that await a newer event may be shown next. So they are a map from each key to
//! its number, which grows as keys come, seen as the list by ascending number (`KeyList`): one is
//! found, put in and taken out in O(log n), in comparisons of keys, and nothing is hashed.
//!
//! A queue has each key once. The core never queues one that is queued, by its rules; that the
//! rules are so in every run is used where keys are queued.
#![tactic(auto)]

mod list;
mod queue;

pub use list::KeyList;
pub use queue::{KeyQueue, KeyTest};
