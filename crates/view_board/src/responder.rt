//! Who answers frames by the view that is published.
ghost use Rattle.std.specs.Prelude.{◌≡◌, ◌⊎◌, length, IfSome, IfNone};
ghost use mathlib.Core.List.{IsPrefix};
ghost use Rattle.view_board.specs.Answers.{IsAnswer, view_after_all};

use crate::answer::{Answer, Asked};
use crate::elected_view::{Classed, ElectedView};
use kube_model::Event;
use std::marker::Model;

/// A beginning of the appended events, which contracts see as these events. It is a number when it
/// runs, and may go to any thread.
pub type Told<J> = shown_board::Beginning<Event, J>;

/// An answer, with the number of the events by whose view it was given.
pub type Reply = shown_board::Reply<Answer>;

/// Answers frames. Contracts see the events that it has seen, and the longest list of events that
/// it was told of.
#[derive(Drop)]
pub struct Responder<J: Classed> {
    responder: shown_board::Responder<ElectedView<J>, Event, J>,
}

impl<J: Classed> Model for Responder<J> {
    ghost use Rattle.kube_model.specs.declared.event.Event.{Event as EventValue};
    ghost use Rattle.shown_board.specs.Boarded.{Sight};

    ghost Value = { Sight EventValue };

    ghost view = { λ r. r.responder };
}

impl<J: Classed> Responder<J> {
    pub(crate) fn new(responder: shown_board::Responder<ElectedView<J>, Event, J>) -> Responder<J>
        ensures { result ≡ responder }
    {
        Responder { responder }
    }

    /// What it has seen. It takes no memory.
    pub fn seen(&self) -> Told<J>
        ensures { result ≡ self.now.seen }
    {
        self.responder.seen()
    }

    /// Takes in what was told: from now on no answer is by less. It takes no memory.
    pub fn learn(&mut self, told: Told<J>)
        ensures seen { self.new.seen ≡ self.old.seen }
        ensures told { IsPrefix self.old.told self.new.told × IsPrefix told self.new.told }
        ensures one { (self.new.told ≡ self.old.told) ⊎ (self.new.told ≡ told) }
    {
        self.responder.learn(told);
    }

    /// The answer to the frame that the node's interface with this hardware address received, by
    /// the view after the events that are then seen: that of ARP where there is one, else that of
    /// Neighbor Discovery, else silence. These events begin with all that were seen before, and
    /// with all that it was told of. `None` is free: nothing is seen where the writer has ended. It
    /// takes no memory.
    pub fn respond(
        &mut self,
        node: &str,
        interface: &str,
        mac: &[u8; 6],
        frame: &[u8],
    ) -> Option<Reply>
        ensures none { IfNone result (self.new ≡ self.old) }
        ensures told { self.new.told ≡ self.old.told }
        ensures later { IfSome result (λ _. IsPrefix self.old.seen self.new.seen
            × IsPrefix self.old.told self.new.seen) }
        ensures seen { IfSome result (λ reply. reply.seen ≡ length self.new.seen) }
        ensures answer { IfSome result
            (λ reply. IsAnswer (view_after_all J.class self.new.seen) node.now interface.now mac.now
            frame.now reply.answer) }
    {
        self.responder.respond(&Asked {
            node,
            interface,
            mac,
            frame,
        })
    }
}
