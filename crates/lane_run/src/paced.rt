//! Waiting for lanes, only at times.
ghost use Rattle.std.specs.Prelude.{◌≡◌, ◌+◌, ◌^◌, ◌<◌, ◌≤◌, ◌↔◌, ◌∷◌, [], ⊤, List, length, OnOk};
ghost use Rattle.std.specs.Prelude.{IfErr};
ghost use Rattle.lane_mail.specs.Lanes.{other};
ghost use Rattle.lane_mail.specs.Looks.{IsInTurn};
ghost use Rattle.lane_mail.specs.Values.{HasAll, Took, TookNone, sent_more};
ghost use Rattle.lane_mail.specs.declared.item.Item.{Item};
ghost use Rattle.lane_mail.specs.declared.lane.Lane.TheVariants.{First, Second};
ghost use Rattle.lane_run.specs.Waiting.{MayWaitNow};

use lane_mail::{InboxPass, Item, LaneDone, LanePass, Lists, Mail, PutBack, Taken};
use mlb_edge::Sink;
use std::sync::Wait;

/// May wait for the next item of a mail only at times, as a live bridge, which sends the next event
/// once it has seen what those before came to.
///
/// It isn't a `Wait`, and an item can be waited for only beside the sink itself. What is generic
/// over the runtime and its sink has no other sink of that type than its own. So it shows, at each
/// call that may wait for an item, that it may be waited for when its own sink stands so, and where
/// it drops what the lanes send that this may be dropped.
pub trait PacedWait<K: Sink> {
    /// The next item may be waited for when these were taken, in this order, and this is the sink.
    ghost may_wait: { Self → List Item → K → Type 0 };

    /// What the lanes still send may be dropped when these were taken, in this order, and this is
    /// the sink.
    ghost may_drop: { Self → List Item → K → Type 0 };

    /// The next item, as `Mail::take` gives it. `out` is the sink that the items taken before are
    /// answered to.
    fn take_next(&self, mail: &Mail, inbox: &mut InboxPass, out: &K) -> Taken
        requires mail { inbox.old.mail ≡ mail.now }
        requires paced { MayWaitNow may_wait self.now inbox.old.first inbox.old.second out.now }
        ensures mail { inbox.new.mail ≡ inbox.old.mail }
        ensures item { (item : Item) → result ≡ Taken.Item item
            → Took (item ∷ []) inbox.old inbox.new }
        ensures few { (item : Item) → result ≡ Taken.Item item
            → length inbox.new.first + length inbox.new.second ≤ 2 ^ 62 }
        ensures turn { (item : Item) → result ≡ Taken.Item item
            → IsInTurn item.lane inbox.old inbox.new }
        ensures next { (item : Item) → result ≡ Taken.Item item → inbox.new.next ≡ other item.lane }
        ensures ended { (result ≡ Taken.AllEnded) ↔ (TookNone inbox.old inbox.new × HasAll inbox.new) };

    /// Takes all that the lanes still send, and drops it unseen. `out` is the sink that the items
    /// taken before are answered to.
    fn drop_rest(&self, mail: &Mail, inbox: &mut InboxPass, out: &K)
        requires mail { inbox.old.mail ≡ mail.now }
        requires paced { MayWaitNow may_drop self.now inbox.old.first inbox.old.second out.now }
        ensures mail { inbox.new.mail ≡ inbox.old.mail }
        ensures taken { (items : List Item) × Took items inbox.old inbox.new }
        ensures ended { HasAll inbox.new };
}

/// The other calls of a mail. They may wait too, but give none of its items while the lanes go on.
pub trait MailWait {
    /// `Mail::put`.
    fn put(
        &self,
        mail: &Mail,
        pass: &mut LanePass,
        item: Item,
        octets: usize,
    ) -> Result<(), PutBack>
        requires mail { pass.old.mail ≡ mail.now }
        requires lane { item.lane ≡ pass.old.lane }
        requires room { length pass.old.sent < 2 ^ 61 }
        ensures ok { OnOk result (pass.new ≡ sent_more pass.old item) }
        ensures err { IfErr result (λ back. (back.item ≡ item) × (pass.new ≡ pass.old)) };

    /// `Mail::end`.
    fn end(&self, mail: &Mail, pass: LanePass) -> LaneDone
        requires { pass.mail ≡ mail.now }
        ensures { result ≡ pass };

    /// `Mail::into_lists`.
    fn into_lists(&self, mail: Mail, inbox: InboxPass, first: LaneDone, second: LaneDone) -> Lists
        requires mail { (inbox.mail ≡ mail) × (first.mail ≡ mail) × (second.mail ≡ mail) }
        requires lanes { (first.lane ≡ First) × (second.lane ≡ Second) }
        requires ended { HasAll inbox }
        ensures first { inbox.first ≡ first.sent }
        ensures second { inbox.second ≡ second.sent };
}

/// What is a `Wait` may wait, and drop, at any time, beside any sink.
impl<R: Wait, K: Sink> PacedWait<K> for R {
    ghost may_wait = { λ _ _ _. ⊤ };

    ghost may_drop = { λ _ _ _. ⊤ };

    fn take_next(&self, mail: &Mail, inbox: &mut InboxPass, _out: &K) -> Taken {
        mail.take(self, inbox)
    }

    fn drop_rest(&self, mail: &Mail, inbox: &mut InboxPass, _out: &K) {
        for _ in self.forever() {
            match mail.take(self, inbox) {
                Taken::Item(item) => drop(item),
                Taken::AllEnded => return,
            }
        }
        unreachable!()
    }
}

/// What is a `Wait` is one for mails.
impl<R: Wait> MailWait for R {
    fn put(
        &self,
        mail: &Mail,
        pass: &mut LanePass,
        item: Item,
        octets: usize,
    ) -> Result<(), PutBack> {
        mail.put(self, pass, item, octets)
    }

    fn end(&self, mail: &Mail, pass: LanePass) -> LaneDone {
        mail.end(self, pass)
    }

    fn into_lists(&self, mail: Mail, inbox: InboxPass, first: LaneDone, second: LaneDone) -> Lists {
        mail.into_lists(self, inbox, first, second)
    }
}
