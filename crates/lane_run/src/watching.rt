//! A watcher: it reads the lines of a source, and sends what their events are turned into.
ghost use Rattle.std.specs.Prelude.{◌≡◌, ◌≤◌, ◌<◌, ◌^◌, [], length, IfSome, IfNone, IsTrue, not};
ghost use Rattle.lane_mail.specs.Values.{sent_more};
ghost use Rattle.mlb_edge.specs.InputLines.{Passes, to_come};
ghost use Rattle.lane_run.specs.Steps.{SendsNext, EndsAt};
ghost use Rattle.lane_run.specs.Turned.{CanWatch, EndedTurned, IsLeft, Watched};
ghost use Rattle.lane_run.specs.Outside.{lane_state};

use crate::lane_end::{LaneEnd, end_of};
use crate::lanes::Lanes;
use crate::line_items::{item_of_line, turn_item};
use crate::paced::MailWait;
use crate::turner::Turner;
use crate::watched::WatchPass;
use lane_mail::{Item, Lane, LaneDone, LanePass, Mail};
use mlb_edge::{LineReader, Source};
use std::alloc::Global;

/// Sends the item, whose line has so many octets, and answers whether there was memory for it.
fn put_item<R: MailWait>(
    rt: &R,
    mail: &Mail,
    pass: &mut LanePass,
    item: Item,
    octets: usize,
) -> bool
    requires mail { pass.old.mail ≡ mail.now }
    requires lane { item.lane ≡ pass.old.lane }
    requires room { length pass.old.sent < 2 ^ 61 }
    ensures sent { IsTrue result → pass.new ≡ sent_more pass.old item }
    ensures unsent { IsTrue (not result) → pass.new ≡ pass.old }
{
    match rt.put(mail, pass, item, octets) {
        Ok(()) => true,
        Err(back) => {
            drop(back);
            false
        }
    }
}

/// Reads one line and sends what its event is turned into. `Some` says how the lane ended, and then
/// nothing was sent.
fn send_next<L: Lanes, T: Turner, R: MailWait, S: Source>(
    rt: &R,
    alloc: Global,
    lane: Lane,
    mail: &Mail,
    pass: &mut LanePass,
    turner: &mut T,
    reader: &mut LineReader,
    source: &mut S,
) -> Option<LaneEnd>
    requires mail { pass.old.mail ≡ mail.now }
    requires lane { pass.old.lane ≡ lane }
    requires room { length pass.old.sent ≤ reader.old.passed }
    ensures sends { IfNone result (SendsNext T.Turns (T.state turner.old)
        (T.state turner.new) L.belongs lane pass.old pass.new
        (to_come reader.old (S.left source.old)) (to_come reader.new (S.left source.new))) }
    ensures ends { IfSome result (λ end. EndsAt L.belongs lane
        (to_come reader.old (S.left source.old)) (to_come reader.new (S.left source.new))
        reader.new.held (S.left source.new) (S.faults source.old) (S.faults source.new)
        (S.unfailing source.old) end) }
    ensures unsent { IfSome result (λ _. pass.new ≡ pass.old) }
    ensures left { IfSome result (λ end. IsLeft T.Turns (T.state turner.old)
        (T.state turner.new) end) }
    ensures passes { Passes reader.old reader.new (S.left source.old) (S.left source.new) }
    ensures near { IfNone result
        ((reader.old.passed < reader.new.passed) × (reader.new.passed ≤ 2 ^ 40)) }
    ensures later { S.faults source.old ≤ S.faults source.new }
    ensures name { S.name source.new ≡ S.name source.old }
    ensures unfailing { S.unfailing source.new ≡ S.unfailing source.old }
{
    let line = match reader.next_line(source) {
        Ok(Some(line)) => line,
        Ok(None) => return Some(LaneEnd::Done),
        Err(end) => return Some(end_of(end)),
    };
    let octets = line.bytes.len();
    let item = match item_of_line::<L>(alloc, lane, line) {
        Ok(item) => item,
        Err(end) => return Some(end),
    };
    let sent = match turn_item(alloc, turner, item) {
        Ok(sent) => sent,
        Err(end) => return Some(end),
    };
    if put_item(rt, mail, pass, sent, octets) {
        None
    } else {
        Some(LaneEnd::NoMemory)
    }
}

/// Sends what the events of the lines are turned into, one after the other, until the lane ends.
fn send_lines<L: Lanes, T: Turner, R: MailWait, S: Source>(
    rt: &R,
    alloc: Global,
    lane: Lane,
    mail: &Mail,
    pass: &mut LanePass,
    turner: &mut T,
    reader: &mut LineReader,
    source: &mut S,
) -> LaneEnd
    requires mail { pass.old.mail ≡ mail.now }
    requires lane { pass.old.lane ≡ lane }
    requires fresh { pass.old.sent ≡ [] }
    requires reader { reader.old ≡ record { held = []; passed = 0; number = 0 } }
    ensures mail { pass.new.mail ≡ pass.old.mail }
    ensures lane { pass.new.lane ≡ pass.old.lane }
    ensures ended { EndedTurned T.Turns L.belongs lane
        (lane_state (S.left source.old) (S.name source.old) (S.faults source.old) (S.unfailing source.old))
        (lane_state (S.left source.new) (S.name source.new) (S.faults source.new) (S.unfailing source.new))
        (T.state turner.old) (T.state turner.new) pass.new.sent result }
{
    'lines: loop {
        if let Some(end) = send_next::<L, T, R, S>(
            rt, alloc, lane, mail, pass, turner, reader, source,
        ) {
            return end;
        }
    }
}

/// Sends what the events of the source are turned into, with a reader of its own.
fn send_source<L: Lanes, T: Turner, R: MailWait, S: Source>(
    rt: &R,
    alloc: Global,
    lane: Lane,
    mail: &Mail,
    pass: &mut LanePass,
    turner: &mut T,
    source: &mut S,
) -> LaneEnd
    requires mail { pass.old.mail ≡ mail.now }
    requires lane { pass.old.lane ≡ lane }
    requires fresh { pass.old.sent ≡ [] }
    ensures mail { pass.new.mail ≡ pass.old.mail }
    ensures lane { pass.new.lane ≡ pass.old.lane }
    ensures ended { EndedTurned T.Turns L.belongs lane
        (lane_state (S.left source.old) (S.name source.old) (S.faults source.old) (S.unfailing source.old))
        (lane_state (S.left source.new) (S.name source.new) (S.faults source.new) (S.unfailing source.new))
        (T.state turner.old) (T.state turner.new) pass.new.sent result }
{
    let Ok(mut reader) = LineReader::new(alloc) else {
        return LaneEnd::NoMemory;
    };
    send_lines::<L, T, R, S>(rt, alloc, lane, mail, pass, turner, &mut reader, source)
}

/// Sends what the events of the source's lines are turned into, until the input ends or something
/// stops it, and then puts the lane's end mark. The lane's pass is used up.
pub(crate) fn watch<L: Lanes, T: Turner, R: MailWait, S: Source>(
    rt: &R,
    alloc: Global,
    lane: Lane,
    mail: &Mail,
    pass: &mut WatchPass,
    turner: &mut T,
    source: &mut S,
) -> (LaneDone, LaneEnd)
    requires { CanWatch mail.now lane pass.old }
    ensures { Watched T.Turns L.belongs lane mail.now
        (lane_state (S.left source.old) (S.name source.old) (S.faults source.old) (S.unfailing source.old))
        (lane_state (S.left source.new) (S.name source.new) (S.faults source.new) (S.unfailing source.new))
        (T.state turner.old) (T.state turner.new) result.0 result.1 }
{
    let Some(mut pass) = pass.pass.take() else {
        unreachable!();
    };
    let end = send_source::<L, T, R, S>(rt, alloc, lane, mail, &mut pass, turner, source);
    (rt.end(mail, pass), end)
}
