//! A lane that sends more than is taken, and more than the other.
ghost use Rattle.std.specs.Prelude.{◌≡◌, length};
ghost use Rattle.std.specs.Thread.{IsSync};

use crate::mail::steps::{check_end, check_next, send};
use lane_mail::{InboxPass, Lane, LaneDone, LanePass, Mail};
use mlb_base::NoMemory;
use std::process::Abort;
use std::rt::HostRuntime;
use std::sync::Wait;
use std::sync::atomic::{AtomicU64, Ordering};
use std::thread::{Threads, join, yield_now};

/// A lane with so many items untaken waits.
const UNTAKEN: u64 = 65_536;

const COUNT: u64 = 70_000;

const LOOKS: u64 = 1_000_000_000;

/// Sends the items after the first, and ends the lane.
fn send_rest<R: Abort + Wait>(
    rt: &R,
    mail: &Mail,
    mut pass: LanePass,
    reached: &AtomicU64,
) -> LaneDone
    requires mail { pass.mail ≡ mail.now }
    requires lane { pass.lane ≡ Lane.First }
    requires sent { length pass.sent ≡ 1 }
{
    for number in 1..COUNT {
        reached.store(number, Ordering::SeqCst);
        send(rt, mail, &mut pass, Lane::First, number);
    }
    mail.end(rt, pass)
}

/// Takes the items after the first, and looks for no more.
fn take_behind<R: Abort + Wait>(rt: &R, mail: &Mail, inbox: &mut InboxPass)
    requires { inbox.old.mail ≡ mail.now }
{
    for number in 1..COUNT {
        check_next(rt, mail, inbox, Lane::First, number);
    }
    check_end(rt, mail, inbox);
}

/// Takes the items after the first once the lane has come as far as it may.
fn take_rest<R: Abort + Wait>(rt: &R, mail: &Mail, inbox: &mut InboxPass, reached: &AtomicU64)
    requires { inbox.old.mail ≡ mail.now }
{
    for _ in 0..LOOKS {
        if reached.load(Ordering::SeqCst) == UNTAKEN {
            break;
        }
        yield_now();
    }
    for _ in 0..1_000 {
        yield_now();
        let last = reached.load(Ordering::SeqCst);
        assert_eq!(rt; last, UNTAKEN);
    }
    take_behind(rt, mail, inbox);
}

/// One thread sends, and one takes.
fn send_and_take<R: Threads + Abort + Wait + Sync>(
    rt: &R,
    mail: &Mail,
    mut first: LanePass,
    second: LanePass,
    inbox: &mut InboxPass,
)
    requires mail { (first.mail ≡ mail.now) × (second.mail ≡ mail.now)
        × (inbox.old.mail ≡ mail.now) }
    requires first { (first.lane ≡ Lane.First) × (length first.sent ≡ 0) }
{
    send(rt, mail, &mut first, Lane::First, 0);
    check_next(rt, mail, inbox, Lane::First, 0);
    let _second = mail.end(rt, second);
    let reached = AtomicU64::new(0);
    let _ends = join(
        rt,
        || -> LaneDone
            requires { IsSync R.row × (first.mail ≡ mail.now) × (first.lane ≡ Lane.First)
                × (length first.sent ≡ 1) }
        { send_rest(rt, mail, first, &reached) },
        ||
            requires { inbox.now.mail ≡ mail.now }
        { take_rest(rt, mail, inbox, &reached) },
    );
}

#[test]
fn a_lane_that_is_far_ahead_waits(rt: HostRuntime) -> Result<(), NoMemory> {
    let (mail, first, second, mut inbox) = Mail::new(rt.alloc())?;
    send_and_take(&rt, &mail, first, second, &mut inbox);
    Ok(())
}

/// All of the first lane is sent, and then an item of the second. It is taken after one of the
/// first.
fn send_both<R: Abort + Wait>(
    rt: &R,
    mail: &Mail,
    mut first: LanePass,
    mut second: LanePass,
    inbox: &mut InboxPass,
)
    requires mail { (first.mail ≡ mail.now) × (second.mail ≡ mail.now)
        × (inbox.old.mail ≡ mail.now) }
    requires lanes { (first.lane ≡ Lane.First) × (second.lane ≡ Lane.Second) }
    requires sent { (length first.sent ≡ 0) × (length second.sent ≡ 0) }
{
    let reached = AtomicU64::new(0);
    send(rt, mail, &mut first, Lane::First, 0);
    let _first = send_rest(rt, mail, first, &reached);
    send(rt, mail, &mut second, Lane::Second, 7);
    let _second = mail.end(rt, second);
    check_next(rt, mail, inbox, Lane::First, 0);
    check_next(rt, mail, inbox, Lane::Second, 7);
    take_behind(rt, mail, inbox);
}

#[test]
fn a_lane_that_is_far_ahead_holds_up_no_other(rt: HostRuntime) -> Result<(), NoMemory> {
    let (mail, first, second, mut inbox) = Mail::new(rt.alloc())?;
    send_both(&rt, &mail, first, second, &mut inbox);
    Ok(())
}
