//! Who answers received frames, on the thread of their lane.
ghost use Rattle.std.specs.Prelude.{◌≡◌, ◌+◌, ◌^◌, ◌<◌, ◌≤◌, ◌++◌, length, vec_len, vec_capacity};
ghost use Rattle.std.specs.Prelude.{IfOk, IfSome, IfNone, OnErr};
ghost use Rattle.std.specs.Int.{w64, to_be_bytes};
ghost use mathlib.Core.List.{IsPrefix};
ghost use Rattle.speaker_view.specs.View.{fresh};
ghost use Rattle.speaker_run.specs.Responding.{Answers, IsAnsweredBy, Turns, view_after_all};
ghost use Rattle.speaker_run.specs.ResponderSeen.{octets_of};

use kube_labels::Text;
use kube_model::Event;
use lane_run::Turner;
use mlb_base::{ByteList, NoMemory};
use speaker_machine::LocalNode;
use std::alloc::Global;
use std::marker::Model;
use view_board::{Answer, Classed, Reply, Responder};

/// The octets of a number of events, and the longest answer, a neighbor advertisement.
const MOST_OCTETS: usize = 8 + 86;

/// Turns each received frame into its answer, by what the speaker has published then.
#[derive(Drop)]
pub(crate) struct FrameAnswerer<J: Classed> {
    pub(crate) local: LocalNode,
    pub(crate) responder: Responder<J>,
}

impl<J: Classed> Model for FrameAnswerer<J> {
    ghost use Rattle.speaker_view.specs.View.{fresh};
    ghost use Rattle.speaker_run.specs.Responding.{Answering};

    ghost Value = { Answering };

    ghost view = { λ a. record { local = a.local; opening = fresh J.class; sight = a.responder } };
}

impl<J: Classed> Turner for FrameAnswerer<J> {
    ghost use Rattle.speaker_run.specs.Responding.{Answering, Turns};

    ghost State = { Answering };

    ghost state = { λ answerer. answerer };

    ghost Turns = { Turns };

    fn turn(&mut self, alloc: Global, event: Event) -> Result<Event, NoMemory> {
        match event {
            Event::Frame { interface, bytes } => self.answered(alloc, interface, bytes),
            other => Ok(other),
        }
    }
}

impl<J: Classed> FrameAnswerer<J> {
    /// The item's event for a frame that the interface received: by how many events it is answered,
    /// and the answer.
    fn answered(
        &mut self,
        alloc: Global,
        interface: Text,
        frame: ByteList,
    ) -> Result<Event, NoMemory>
        ensures ok { IfOk result (λ sent. Answers self.old self.new (record { interface = interface; frame = frame }) sent) }
        ensures err { OnErr result (self.new ≡ self.old) }
    {
        // Nothing is seen where there is no room to tell it.
        let Ok(mut octets) = Vec::with_capacity(alloc, MOST_OCTETS) else {
            drop(interface);
            drop(frame);
            return Err(NoMemory);
        };
        let Some(reply) = self.reply(&interface, frame.as_slice()) else {
            drop(interface);
            drop(frame);
            drop(octets);
            return Err(NoMemory);
        };
        drop(frame);
        fill(&mut octets, &octets_of_number(reply.seen));
        fill_answer(&mut octets, &reply.answer);
        Ok(Event::Frame {
            interface,
            bytes: ByteList::from_vec(octets),
        })
    }

    /// The answer, which is none where the interface isn't one of the words.
    fn reply(&mut self, interface: &Text, frame: &[u8]) -> Option<Reply>
        ensures none { IfNone result (self.new ≡ self.old) }
        ensures same { (self.new.local ≡ self.old.local) × (self.new.opening ≡ self.old.opening)
            × (self.new.sight.told ≡ self.old.sight.told) }
        ensures later { IfSome result (λ _. IsPrefix self.old.sight.seen self.new.sight.seen
            × IsPrefix self.old.sight.told self.new.sight.seen) }
        ensures seen { IfSome result (λ reply. reply.seen ≡ length self.new.sight.seen) }
        ensures answer { IfSome result
            (λ reply. IsAnsweredBy (view_after_all self.old.opening self.new.sight.seen)
            self.old.local
            (record { interface = interface.now; frame = frame.now }) (octets_of reply.answer)) }
    {
        reply_by(&self.local, &mut self.responder, interface, frame)
    }
}

/// The answer to a frame that came by the interface, by what is seen then: none where it isn't one
/// of the words.
fn reply_by<J: Classed>(
    local: &LocalNode,
    responder: &mut Responder<J>,
    interface: &Text,
    frame: &[u8],
) -> Option<Reply>
    ensures none { IfNone result (responder.new ≡ responder.old) }
    ensures told { responder.new.told ≡ responder.old.told }
    ensures later { IfSome result (λ _. IsPrefix responder.old.seen responder.new.seen
        × IsPrefix responder.old.told responder.new.seen) }
    ensures seen { IfSome result (λ reply. reply.seen ≡ length responder.new.seen) }
    ensures answer { IfSome result
        (λ reply. IsAnsweredBy (view_after_all (fresh J.class) responder.new.seen) local.now
        (record { interface = interface.now; frame = frame.now }) (octets_of reply.answer)) }
{
    let Some(interface) = local.interface(interface) else {
        return silence(local, responder);
    };
    let (node, name, mac) = (local.node.as_str(), interface.name.as_str(), &interface.mac);
    responder.respond(node, name, mac, frame)
}

/// What is seen, and no answer.
fn silence<J: Classed>(local: &LocalNode, responder: &mut Responder<J>) -> Option<Reply>
    ensures none { IfNone result (responder.new ≡ responder.old) }
    ensures told { responder.new.told ≡ responder.old.told }
    ensures later { IfSome result (λ _. IsPrefix responder.old.seen responder.new.seen
        × IsPrefix responder.old.told responder.new.seen) }
    ensures seen { IfSome result (λ reply. (reply.seen ≡ length responder.new.seen)
        × (reply.answer ≡ Answer.Silent)) }
{
    // An empty frame has no answer.
    let reply = responder.respond(local.node.as_str(), "", &[0; 6], &[])?;
    Some(Reply {
        seen: reply.seen,
        answer: Answer::Silent,
    })
}

/// The number in eight octets, the most significant first.
fn octets_of_number(number: u64) -> [u8; 8]
    ensures octets { result ≡ to_be_bytes w64 number }
    ensures fits { number < 2 ^ 64 }
{
    number.to_be_bytes()
}

/// Puts the octets of the answer after those that are there, where there is room for the longest.
fn fill_answer(octets: &mut Vec<u8>, answer: &Answer)
    requires { vec_len octets.old + 86 ≤ vec_capacity octets.old }
    ensures { octets.new.items ≡ octets.old.items ++ octets_of answer.now }
{
    match answer {
        Answer::Arp { bytes } => fill(octets, bytes),
        Answer::Ndp { bytes } => fill(octets, bytes),
        Answer::Silent => (),
    }
}

/// Puts the octets after those that are there, where there is room for them.
fn fill(octets: &mut Vec<u8>, more: &[u8])
    requires { vec_len octets.old + length more.now ≤ vec_capacity octets.old }
    ensures items { octets.new.items ≡ octets.old.items ++ more.now }
    ensures len { vec_len octets.new ≡ vec_len octets.old + length more.now }
    ensures capacity { vec_capacity octets.old ≤ vec_capacity octets.new }
{
    let _ = octets.extend_from_slice(more);
}
