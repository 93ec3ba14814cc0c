//! Steps of a mail.
//!
//! Each function here is proved, so an item, a mail and what comes of it are dropped by a call of
//! `drop`.
ghost use Rattle.std.specs.Prelude.{◌≡◌, ◌+◌, ◌^◌, ◌<◌, length};

use kube_model::Event;
use lane_mail::{InboxPass, Item, Lane, LanePass, Mail, Taken};
use std::process::Abort;
use std::sync::Wait;

/// Sends an item with this number, for which there must be memory.
pub fn send<R: Abort + Wait>(rt: &R, mail: &Mail, pass: &mut LanePass, lane: Lane, number: u64)
    requires mail { pass.old.mail ≡ mail.now }
    requires lane { lane ≡ pass.old.lane }
    requires room { length pass.old.sent < 2 ^ 61 }
    ensures mail { pass.new.mail ≡ pass.old.mail }
    ensures lane { pass.new.lane ≡ pass.old.lane }
    ensures sent { length pass.new.sent ≡ length pass.old.sent + 1 }
{
    let event = Event::Expired;
    let sent = mail.put(
        rt,
        pass,
        Item {
            lane,
            number,
            event,
        },
        1,
    );
    let is_sent = sent.is_ok();
    drop(sent);
    assert!(rt; is_sent);
}

/// Takes the next item, which must be of this lane and have this number.
pub fn check_next<R: Abort + Wait>(
    rt: &R,
    mail: &Mail,
    inbox: &mut InboxPass,
    lane: Lane,
    number: u64,
)
    requires { inbox.old.mail ≡ mail.now }
    ensures { inbox.new.mail ≡ inbox.old.mail }
{
    match mail.take(rt, inbox) {
        Taken::Item(item) => {
            let is_next = item.lane == lane && item.number == number;
            drop(item);
            assert!(rt; is_next, "number {number}");
        }
        Taken::AllEnded => panic!(rt; "no item is left"),
    }
}

/// Looks into the mail where both lanes have ended and all is taken.
pub fn check_end<R: Abort + Wait>(rt: &R, mail: &Mail, inbox: &mut InboxPass)
    requires { inbox.old.mail ≡ mail.now }
    ensures { inbox.new.mail ≡ inbox.old.mail }
{
    match mail.take(rt, inbox) {
        Taken::Item(item) => {
            drop(item);
            panic!(rt; "an item is left")
        }
        Taken::AllEnded => {}
    }
}
