//! The board and its writer.
ghost use Rattle.std.specs.Prelude.{◌≡◌, ◌++◌, ◌∷◌, [], IfOk, MatchResult};

use crate::elected_view::{Classed, ElectedView};
use crate::responder::{Responder, Told};
use kube_labels::Text;
use kube_model::Event;
use mlb_base::{NoMemory, TryCopy};
use shown_board::{Opened, Posted};
use std::alloc::Global;
use std::marker::Model;
use std::sync::Wait;

/// An event that wasn't appended, where memory ran out.
pub type AppendBack = shown_board::AppendBack<Event>;

/// Applies events to the view, and publishes it. Contracts see the events that are published and
/// those that are pending. It is not `Drop`: end it by `end`.
pub struct BoardWriter<J: Classed> {
    writer: shown_board::BoardWriter<Posted<ElectedView<J>, Event, J>, Event, J>,
}

impl<J: Classed> Model for BoardWriter<J> {
    ghost use Rattle.kube_model.specs.declared.event.Event.{Event as EventValue};
    ghost use Rattle.shown_board.specs.Boarded.{Boarded};

    ghost Value = { Boarded EventValue };

    ghost view = { λ b. b.writer };
}

/// A board of the view of nothing, for the services of this class, with one writer and one
/// responder.
pub fn board<J: Classed, R: Wait>(
    rt: &R,
    alloc: Global,
    opened: Opened<Event>,
    class: Option<Text>,
) -> Result<(BoardWriter<J>, Responder<J>), NoMemory>
    requires book { opened.seen.book ≡ J.book }
    requires class { class ≡ J.class }
    ensures writer { IfOk result (λ b. (b.0.published ≡ []) × (b.0.pending ≡ [])) }
    ensures responder { IfOk result (λ b. (b.1.seen ≡ []) × (b.1.told ≡ [])) }
{
    let Ok(copied) = class.copy() else {
        drop(class);
        return Err(NoMemory);
    };
    let first = ElectedView::new(alloc, copied);
    let second = ElectedView::new(alloc, class);
    let (writer, responder) = shown_board::board(rt, alloc, opened, first, second)?;
    Ok((BoardWriter { writer }, Responder::new(responder)))
}

impl<J: Classed> BoardWriter<J> {
    /// The event goes to the end of what is pending. Where memory ran out it comes back, and
    /// nothing changes; so it is behind 2^64 - 1 events.
    pub fn append(&mut self, event: Event) -> Result<(), AppendBack>
        ensures published { self.new.published ≡ self.old.published }
        ensures pending { MatchResult result
            (λ _. self.new.pending ≡ self.old.pending ++ event ∷ [])
            (λ back. (back.event ≡ event) × (self.new.pending ≡ self.old.pending)) }
    {
        self.writer.append(event)
    }

    /// Publishes all that is pending, at one step. Where memory is wanting nothing changes, as
    /// after an event that passes a limit of the view, which each publication to come refuses:
    /// whoever appends events asks a view of its own first.
    pub fn publish<R: Wait>(&mut self, rt: &R) -> Result<(), NoMemory>
        ensures { MatchResult result
            (λ _. (self.new.published ≡ self.old.published ++ self.old.pending)
            × (self.new.pending ≡ []))
            (λ _. self.new ≡ self.old) }
    {
        self.writer.publish(rt)?;
        Ok(())
    }

    /// What is published, for the responder to learn. It takes no memory.
    pub fn tell(&self) -> Told<J>
        ensures { result ≡ self.now.published }
    {
        self.writer.tell()
    }

    /// Ends the board. It waits for the responder to leave the view that it reads.
    pub fn end<R: Wait>(self, rt: &R) {
        let BoardWriter { writer } = self;
        writer.end(rt);
    }
}
