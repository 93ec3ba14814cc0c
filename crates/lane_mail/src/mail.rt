//! A queue of items for each lane, and beside them one of two end marks.
ghost use Rattle.std.specs.Prelude.{◌≡◌, ◌^◌, ◌<◌, ◌≤◌, ◌↔◌, ◌+◌, [], ◌∷◌, length, Some, None};
ghost use Rattle.std.specs.Prelude.{IfOk, OnOk, IfErr, IfSome, MatchOption};

use crate::inbox_pass::InboxPass;
use crate::item::Item;
use crate::lane::Lane;
use crate::lane_done::LaneDone;
use crate::lane_inbox::LaneInbox;
use crate::lane_pass::LanePass;
use crate::lists::Lists;
use crate::mark::Mark;
use crate::parking::Parking;
use crate::put_back::PutBack;
use crate::rules::{Beside, FirstLane, Get, Items, Marks, Put, SecondLane};
use crate::settling::settle;
use crate::taken::Taken;
use crate::untaken::Untaken;
use mlb_base::NoMemory;
use std::alloc::Global;
use std::marker::Model;
use std::sync::Wait;

/// The mail of two lanes, which contracts see as the name by which it is told from any other.
///
/// It is shared by reference, and what each thread may do with it is its pass.
pub struct Mail {
    first_items: Items,
    second_items: Items,
    marks: Marks,
    parking: Parking,
}

impl Model for Mail {
    ghost use Rattle.std.specs.Prelude.{◌≡◌};
    ghost use Rattle.lane_mail.specs.Values.{MailId};

    ghost Value = { MailId };

    ghost view = { λ m. record { first = m.first_items; second = m.second_items; table = m.marks.table.shared.table_id } };

    ghost invariant = { λ m. m.marks.cap ≡ 2 };
}

impl Drop for Mail {
    fn drop(self) {
        let Self {
            first_items,
            second_items,
            marks: _,
            parking: _,
        } = self;
        first_items.destroy();
        second_items.destroy();
    }
}

impl Mail {
    ghost use Rattle.lane_mail.specs.Lanes.{other};
    ghost use Rattle.lane_mail.specs.Values.{HasAll, EndsStay, Took, TookNone, lane_queue};
    ghost use Rattle.lane_mail.specs.Values.{sent_more, took_more, emptied};
    ghost use Rattle.lane_mail.specs.Looks.{IsInTurn, FindsNone, TakesNext, Gives, GivesNone};

    /// A mail, the right to send of each lane, and the right to take.
    pub fn new(alloc: Global) -> Result<(Mail, LanePass, LanePass, InboxPass), NoMemory>
        ensures mail { IfOk result (λ m. (m.1.mail ≡ m.0) × (m.2.mail ≡ m.0) × (m.3.mail ≡ m.0)) }
        ensures lanes { IfOk result (λ m. (m.1.lane ≡ Lane.First) × (m.2.lane ≡ Lane.Second)) }
        ensures sent { IfOk result (λ m. (m.1.sent ≡ []) × (m.2.sent ≡ [])) }
        ensures taken { IfOk result (λ m. (m.3.first ≡ []) × (m.3.second ≡ [])) }
        ensures ends { IfOk result (λ m. (m.3.first_end ≡ None) × (m.3.second_end ≡ None)) }
        ensures next { IfOk result (λ m. m.3.next ≡ Lane.First) }
    {
        let (marks, mut inbox_marks) = Marks::ruled(alloc, 2)?;
        let (first_items, mut first_inbox) = Items::with_rule(alloc)?;
        let Ok((second_items, mut second_inbox)) = Items::with_rule(alloc) else {
            first_items.destroy();
            return Err(NoMemory);
        };
        let first = LanePass {
            lane: Lane::First,
            count: 0,
            untaken: Untaken::new(alloc),
            items: first_items.another::<FirstLane>(&mut first_inbox),
            beside: second_items.another::<Beside>(&mut second_inbox),
            marks: marks.another::<FirstLane>(&mut inbox_marks),
        };
        let second = LanePass {
            lane: Lane::Second,
            count: 0,
            untaken: Untaken::new(alloc),
            items: second_items.another::<SecondLane>(&mut second_inbox),
            beside: first_items.another::<Beside>(&mut first_inbox),
            marks: marks.another::<SecondLane>(&mut inbox_marks),
        };
        let inbox = InboxPass {
            first: LaneInbox::new(Lane::First, first_inbox),
            second: LaneInbox::new(Lane::Second, second_inbox),
            marks: inbox_marks,
            first_end: None,
            second_end: None,
            next: Lane::First,
        };
        let mail = Mail {
            first_items,
            second_items,
            marks,
            parking: Parking::new(),
        };
        Ok((mail, first, second, inbox))
    }

    // The queue of the lane.
    fn items(&self, lane: Lane) -> &Items
        ensures { result.now ≡ lane_queue lane self.now }
    {
        match lane {
            Lane::First => &self.first_items,
            Lane::Second => &self.second_items,
        }
    }

    /// Sends the item, and waits until fewer than 65,536 items of the lane lie untaken, and fewer than 67,108,864 octets of their lines; this one's has
    /// `octets`. The item comes back only where memory ran out, and then nothing was sent. A lane may send 2^61 items.
    ///
    /// Before the first `take` it doesn't wait for room: where no thread could be made for whoever
    /// takes, both lanes are sent whole before anything is taken. So whoever takes goes on until
    /// both lanes have ended.
    pub fn put<R: Wait>(
        &self,
        rt: &R,
        pass: &mut LanePass,
        item: Item,
        octets: usize,
    ) -> Result<(), PutBack>
        requires mail { pass.old.mail ≡ self.now }
        requires lane { item.lane ≡ pass.old.lane }
        requires room { length pass.old.sent < 2 ^ 61 }
        ensures ok { OnOk result (pass.new ≡ sent_more pass.old item) }
        ensures err { IfErr result (λ back. (back.item ≡ item) × (pass.new ≡ pass.old)) }
    {
        if pass.untaken.add(octets).is_err() {
            return Err(PutBack { item });
        }
        match self
            .items(pass.lane)
            .push_as::<Put, R>(rt, &mut pass.items, item)
        {
            Ok(()) => {
                pass.count += 1;
                self.parking.wake_taker();
                self.parking
                    .wait_for_room(rt, pass.lane, pass.count, &mut pass.untaken);
                Ok(())
            }
            Err(item) => {
                pass.untaken.forget_last();
                Err(PutBack { item })
            }
        }
    }

    /// Puts the lane's end mark, which tells the number of items that it sent.
    pub fn end<R: Wait>(&self, rt: &R, pass: LanePass) -> LaneDone
        requires { pass.mail ≡ self.now }
        ensures { result ≡ pass }
    {
        let LanePass {
            lane,
            count,
            untaken: _,
            items,
            beside,
            mut marks,
        } = pass;
        match self
            .marks
            .push_as::<Put, R>(rt, &mut marks, Mark { lane, count })
        {
            Ok(()) => {
                self.parking.wake_taker();
                LaneDone {
                    lane,
                    items,
                    beside,
                    marks,
                }
            }
            Err(_) => unreachable!(),
        }
    }

    // The next item of the lane, if its queue holds one. The other lane's turn is next then.
    fn pop_item<R: Wait>(&self, rt: &R, pass: &mut InboxPass, lane: Lane) -> Option<Item>
        requires { pass.old.mail ≡ self.now }
        ensures pass { MatchOption result (pass.new ≡ emptied lane pass.old)
            (λ item. (item.lane ≡ lane) × (pass.new ≡ took_more pass.old item)) }
        ensures few { IfSome result (λ _. length pass.new.first + length pass.new.second ≤ 2 ^ 62) }
    {
        let item = match lane {
            Lane::First => pass.first.pop(rt, &self.first_items, &pass.second)?,
            Lane::Second => pass.second.pop(rt, &self.second_items, &pass.first)?,
        };
        pass.next = lane.other();
        Some(item)
    }

    // The next item of the lane whose turn it is, or else of the other.
    fn pop_next<R: Wait>(&self, rt: &R, pass: &mut InboxPass) -> Option<Item>
        requires { pass.old.mail ≡ self.now }
        ensures pass { MatchOption result (FindsNone pass.old pass.new)
            (λ item. TakesNext item pass.old pass.new) }
        ensures few { IfSome result (λ _. length pass.new.first + length pass.new.second ≤ 2 ^ 62) }
    {
        let lane = pass.next;
        match self.pop_item(rt, pass, lane) {
            Some(item) => Some(item),
            None => self.pop_item(rt, pass, lane.other()),
        }
    }

    // Whether a mark was there.
    fn pop_mark<R: Wait>(&self, rt: &R, pass: &mut InboxPass) -> bool
        requires { pass.old.mail ≡ self.now }
        ensures mail { pass.new.mail ≡ pass.old.mail }
        ensures taken { TookNone pass.old pass.new }
        ensures ends { EndsStay pass.old pass.new }
        ensures next { pass.new.next ≡ pass.old.next }
    {
        match self.marks.pop_as::<Get, R>(rt, &mut pass.marks) {
            Some(mark) => {
                match mark.lane {
                    Lane::First => pass.first_end = Some(mark.count),
                    Lane::Second => pass.second_end = Some(mark.count),
                }
                true
            }
            None => false,
        }
    }

    // The next item, or that both lanes have ended and each of their items was taken, where either
    // is so now.
    fn look<R: Wait>(&self, rt: &R, pass: &mut InboxPass) -> Option<Taken>
        requires { pass.old.mail ≡ self.now }
        ensures { MatchOption result (GivesNone pass.old pass.new)
            (λ taken. Gives taken pass.old pass.new) }
    {
        if pass.has_all() {
            return Some(Taken::AllEnded);
        }
        match self.pop_next(rt, pass) {
            Some(item) => {
                self.parking.tell_taken(item.lane, pass.count_of(item.lane));
                Some(Taken::Item(item))
            }
            None => None,
        }
    }

    // Takes a mark, or waits for something more where none is there.
    fn await_more<R: Wait>(&self, rt: &R, pass: &mut InboxPass)
        requires { pass.old.mail ≡ self.now }
        ensures mail { pass.new.mail ≡ pass.old.mail }
        ensures taken { TookNone pass.old pass.new }
        ensures ends { EndsStay pass.old pass.new }
        ensures next { pass.new.next ≡ pass.old.next }
    {
        if !self.pop_mark(rt, pass) {
            self.parking.wait_for_more(rt);
        }
    }

    /// The next item, or that both lanes have ended and each of their items was taken. It waits
    /// while neither is so.
    ///
    /// Items of one lane come in their order, and the lanes by turns: after an item it is the other
    /// lane's turn, and that one is ignored only where it was found empty after the last item
    /// taken. End marks may come at any call, and tell how many items of the lane there are.
    pub fn take<R: Wait>(&self, rt: &R, pass: &mut InboxPass) -> Taken
        requires { pass.old.mail ≡ self.now }
        ensures mail { pass.new.mail ≡ pass.old.mail }
        ensures item { (item : Item) → result ≡ Taken.Item item
            → Took (item ∷ []) pass.old pass.new }
        ensures ended { (result ≡ Taken.AllEnded) ↔ (TookNone pass.old pass.new × HasAll pass.new) }

        // No lane sends more than 2^61 items.
        ensures few { (item : Item) → result ≡ Taken.Item item
            → length pass.new.first + length pass.new.second ≤ 2 ^ 62 }

        // The lane whose turn it is isn't skipped but where it was found empty.
        ensures turn { (item : Item) → result ≡ Taken.Item item
            → IsInTurn item.lane pass.old pass.new }
        ensures next { (item : Item) → result ≡ Taken.Item item → pass.new.next ≡ other item.lane }

        // An end mark that came stays, and after the last item nothing changes any more.
        ensures ends { EndsStay pass.old pass.new }
        ensures at_end { HasAll pass.old → pass.new ≡ pass.old }
    {
        self.parking.begin_to_take();
        for _ in rt.forever() {
            match self.look(rt, pass) {
                Some(taken) => return taken,
                None => self.await_more(rt, pass),
            }
        }
        unreachable!()
    }

    /// What was taken of each lane is what it sent, in its order, whole and once.
    pub fn into_lists<R: Wait>(
        self,
        rt: &R,
        inbox: InboxPass,
        first: LaneDone,
        second: LaneDone,
    ) -> Lists
        requires mail { (inbox.mail ≡ self) × (first.mail ≡ self) × (second.mail ≡ self) }
        requires lanes { (first.lane ≡ Lane.First) × (second.lane ≡ Lane.Second) }
        requires ended { HasAll inbox }
        ensures first { (result.first ≡ first.sent) × (inbox.first ≡ first.sent) }
        ensures second { (result.second ≡ second.sent) × (inbox.second ≡ second.sent) }
    {
        let Mail {
            first_items,
            second_items,
            marks,
            parking: _,
        } = self;
        let InboxPass {
            first: first_inbox,
            second: second_inbox,
            marks: mut ends,
            first_end: _,
            second_end: _,
            next: _,
        } = inbox;
        let first = settle(rt, &first_items, first_inbox, &marks, &mut ends, first);
        let second = settle(rt, &second_items, second_inbox, &marks, &mut ends, second);
        first_items.destroy();
        second_items.destroy();
        Lists { first, second }
    }
}
