//! How the threads of a mail wait for one another.
//!
//! No wake-up is lost. A token is left behind each put, and after each token that it took, whoever
//! takes looks into the queues of both lanes and into that of the end marks before it waits again:
//! what was put before is seen then, and what is put later leaves a token again. A sender that
//! waits names the number of items at which it is to be woken, and looks after that whether so many
//! were taken; whoever takes tells how many were taken, and looks after that whether this number is
//! awaited. All of this has one order, so one of the two sees what the other did. The number
//! awaited is one of an item that lies in the lane's queue: whoever takes comes to it without
//! waiting, and leaves a token there.
//!
//! Nor do they wait for each other: whoever takes waits only where the queues of both lanes are
//! empty, and a sender only where its own isn't.

use crate::lane::Lane;
use crate::untaken::Untaken;
use std::sync::Wait;
use std::sync::atomic::{AtomicBool, AtomicU64, Ordering};
use std::thread::Parker;

// What a lane's sender waits for.
#[derive(Drop)]
struct Room {
    sender: Parker,
    taken: AtomicU64,
    awaited: AtomicU64,
}

impl Room {
    fn new() -> Room {
        Room {
            sender: Parker::new(),
            taken: AtomicU64::new(0),
            awaited: AtomicU64::new(0),
        }
    }
}

/// Where whoever takes waits for items and end marks, and each lane's sender for room.
#[derive(Drop)]
pub(crate) struct Parking {
    taker: Parker,
    has_begun: AtomicBool,
    first: Room,
    second: Room,
}

impl Parking {
    pub(crate) fn new() -> Parking {
        Parking {
            taker: Parker::new(),
            has_begun: AtomicBool::new(false),
            first: Room::new(),
            second: Room::new(),
        }
    }

    fn room(&self, lane: Lane) -> &Room {
        match lane {
            Lane::First => &self.first,
            Lane::Second => &self.second,
        }
    }

    /// From now on senders wait for room.
    pub(crate) fn begin_to_take(&self) {
        self.has_begun.store(true, Ordering::SeqCst);
    }

    /// Something was put.
    pub(crate) fn wake_taker(&self) {
        self.taker.unpark();
    }

    /// Waits until something was put since the last wait.
    pub(crate) fn wait_for_more<R: Wait>(&self, rt: &R) {
        self.taker.park(rt);
    }

    /// So many items of the lane were taken.
    pub(crate) fn tell_taken(&self, lane: Lane, count: u64) {
        let room = self.room(lane);
        room.taken.store(count, Ordering::SeqCst);
        if room.awaited.load(Ordering::SeqCst) == count {
            room.sender.unpark();
        }
    }

    /// Waits while too much of the lane, of which so many items were sent, lies untaken. It doesn't
    /// wait before anything is taken.
    pub(crate) fn wait_for_room<R: Wait>(
        &self,
        rt: &R,
        lane: Lane,
        sent: u64,
        untaken: &mut Untaken,
    ) {
        let room = self.room(lane);
        for _ in rt.forever() {
            let taken = room.taken.load(Ordering::SeqCst);
            untaken.keep(sent.saturating_sub(taken));
            if !untaken.is_full() || !self.has_begun.load(Ordering::SeqCst) {
                return;
            }
            let awaited = taken.saturating_add(untaken.share());
            room.awaited.store(awaited, Ordering::SeqCst);
            if room.taken.load(Ordering::SeqCst) < awaited {
                room.sender.park(rt);
            }
        }
    }
}
