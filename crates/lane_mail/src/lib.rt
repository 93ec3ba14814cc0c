//! The mail of two lanes: two threads put items, a third takes each lane's in its order, whole and
//! once.
//!
//! Each lane has a queue of its own, and the lanes are taken by turns: after an item of one lane
//! comes the next of the other if it was put, and else the next of the same. So once an item is
//! put, the other lane has at most one item more taken before it than its own lane has, however
//! many lie there. The clause `turn` of `Mail::take` says that no lane is ignored but where a look
//! into its queue found nothing.
//!
//! `Mail::into_lists` takes `rt`: the queue of items tells what it holds only by a call that may
//! wait.
//!
//! A lane's pass that is dropped leaves its lane without an end, so whoever takes waits for it.
//!
//! Whoever takes parks at once where nothing is there, and each item and each end mark that is put
//! wakes it. To look some times more first, and let others run between the looks, saves a line some
//! 20 microseconds where nothing else runs. Where other work gets the processor at each look, it
//! costs ten times as much as a wake-up. A lane parks before it reads on while 65,536 of its items,
//! or 67,108,864 octets of their lines, lie untaken. It is woken once one in 64 of them was taken,
//! so a full lane isn't woken at each of many items.
//!
//! Nobody waits in a circle. Whoever takes waits only at an empty mail; a lane waits only while
//! items of its own are in the mail, and these are found without waiting. An end mark always has
//! room: a lane that ends, also at a fault, waits for nothing any more, and its mark wakes whoever
//! takes. After a refusal items are taken all the same and dropped, so the lanes go on to their
//! ends. What the reconciler itself waits for, a reply or room in the output, comes from outside:
//! until it comes a full lane stands, and nothing else depends on that lane. No lane waits before
//! something is taken for the first time: where no thread could be made for the reconciler, the
//! lanes are read to their ends before it begins, by one thread or by two. A lane that waited there
//! would wait for ever; so there the mail grows with what the lanes carry. Whoever has begun to
//! take has a thread, and takes until both lanes have ended.
#![tactic(auto)]

mod hand;
mod inbox_pass;
mod item;
mod lane;
mod lane_done;
mod lane_inbox;
mod lane_pass;
mod laws;
mod lists;
mod mail;
mod mark;
mod parking;
mod put_back;
mod rules;
mod settling;
mod taken;
mod untaken;

pub use inbox_pass::InboxPass;
pub use item::Item;
pub use lane::Lane;
pub use lane_done::LaneDone;
pub use lane_pass::LanePass;
pub use laws::{lanes_are_merged, merges_are_split};
pub use lists::Lists;
pub use mail::Mail;
pub use put_back::PutBack;
pub use taken::Taken;
