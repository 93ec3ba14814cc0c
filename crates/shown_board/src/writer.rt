//! The writer of a board.
ghost use Rattle.std.specs.Prelude.{◌≡◌, ◌++◌, ◌∷◌, [], drop, IfOk, MatchResult};
ghost use Rattle.shown_board.specs.Boarded.{Publishes};

use crate::follower::Follower;
use crate::posted::{Post, Posted, Step};
use crate::responder::{PostedReader, Responder};
use core::mem::replace_with;
use crossbeam_utils::rule::Unruled;
use growing_list::{Beginning, Grower, Naming, Opened};
use left_right::writer::Writer;
use std::alloc::{AllocError, Global};
use std::marker::Model;
use std::sync::Wait;

type PostedWriter<P, E, J> = Writer<P, Step<E, J>, (), Unruled>;

/// Contracts see the events that are published and those that are pending. It is not `Drop`: end it
/// by `end`.
pub struct BoardWriter<P: Post<E, J>, E: Drop, J: Naming> {
    grower: Grower<E, J>,
    writer: PostedWriter<P, E, J>,
    // An event is in the list that wasn't appended. No more is appended then.
    is_lost: bool,
}

impl<P: Post<E, J>, E: Drop, J: Naming> Model for BoardWriter<P, E, J> {
    ghost use Rattle.std.specs.Prelude.{◌≡◌, ◌++◌, false, drop};
    ghost use Rattle.shown_board.specs.Boarded.{Boarded, events_of};

    ghost Value = { Boarded E };

    ghost view = { λ b. record { published = P.list b.writer.desk.shown.value; pending = events_of (drop b.writer.behind b.writer.log.items) } };

    ghost invariant = { λ b. b.is_lost ≡ false → P.list b.writer.desk.shown.value ++ events_of (drop b.writer.behind b.writer.log.items) ≡ b.grower };
}

/// An event that wasn't appended, where memory ran out.
#[derive(Drop)]
pub struct AppendBack<E: Drop> {
    pub event: E,
}

/// A board of two equal values before any event, with one writer and one responder.
pub fn board<T: Follower<E>, E: Drop, J: Naming, R: Wait>(
    rt: &R,
    alloc: Global,
    opened: Opened<E>,
    first: T,
    second: T,
) -> Result<(BoardWriter<Posted<T, E, J>, E, J>, Responder<T, E, J>), AllocError>
    requires book { opened.seen.book ≡ J.book }
    requires start { (first ≡ T.start) × (second ≡ T.start) }
    ensures writer { IfOk result (λ b. (b.0.published ≡ []) × (b.0.pending ≡ [])) }
    ensures responder { IfOk result (λ b. (b.1.seen ≡ []) × (b.1.told ≡ [])) }
{
    let grower = opened.named::<J>();
    let whole = grower.whole();
    let first = Posted {
        value: first,
        front: whole.again(),
    };
    let second = Posted {
        value: second,
        front: whole.again(),
    };
    match sides(rt, alloc, first, second) {
        Ok((writer, reader)) => Ok((
            BoardWriter {
                grower,
                writer,
                is_lost: false,
            },
            Responder::new(reader, whole),
        )),
        Err(refused) => {
            drop(grower);
            drop(whole);
            Err(refused)
        }
    }
}

/// What writes the value and what reads it.
fn sides<T: Follower<E>, E: Drop, J: Naming, R: Wait>(
    rt: &R,
    alloc: Global,
    first: Posted<T, E, J>,
    second: Posted<T, E, J>,
) -> Result<(PostedWriter<Posted<T, E, J>, E, J>, PostedReader<T, E, J>), AllocError>
    requires { first ≡ second }
    ensures { IfOk result (λ s. (s.0.desk.shown.value ≡ first)
        × (drop s.0.behind s.0.log.items ≡ [])) }
{
    let writer: PostedWriter<Posted<T, E, J>, E, J> = Writer::new(alloc, first, second, 1)?;
    match writer.factory().reader() {
        Ok(reader) => Ok((writer, reader)),
        Err(refused) => {
            drop(writer.take(rt));
            Err(refused)
        }
    }
}

impl<P: Post<E, J>, E: Drop, J: Naming> BoardWriter<P, E, J> {
    /// The event goes to the end of what is pending. Where memory ran out it comes back, and
    /// nothing changes; so it is behind 2^64 - 1 events.
    pub fn append(&mut self, event: E) -> Result<(), AppendBack<E>>
        ensures published { self.new.published ≡ self.old.published }
        ensures pending { MatchResult result
            (λ _. self.new.pending ≡ self.old.pending ++ event ∷ [])
            (λ back. (back.event ≡ event) × (self.new.pending ≡ self.old.pending)) }
    {
        if self.is_lost || !self.grower.add(&event) {
            return Err(AppendBack { event });
        }
        let front = self.grower.whole();
        match self.writer.append(Step { event, front }) {
            Ok(()) => Ok(()),
            Err(back) => {
                self.is_lost = true;
                Err(AppendBack {
                    event: back.into_event(),
                })
            }
        }
    }

    /// Publishes all that is pending, at one step. Where memory is wanting, or the value can't take
    /// an event, nothing changes.
    pub fn publish<R: Wait>(&mut self, rt: &R) -> Result<(), AllocError>
        ensures { MatchResult result
            (λ _. (self.new.published ≡ self.old.published ++ self.old.pending)
            × (self.new.pending ≡ []))
            (λ _. self.new ≡ self.old) }
    {
        replace_with(
            &mut self.writer,
            rt,
            |writer, rt| -> (PostedWriter<P, E, J>, Result<(), AllocError>)
                ensures { Publishes result.1 (P.list writer.desk.shown.value)
                    (drop writer.behind writer.log.items)
                    (P.list result.0.desk.shown.value) (drop result.0.behind result.0.log.items) }
            { writer.publish_as::<Unruled, R>(rt) },
        )
    }

    /// What is published, for a responder to learn. It takes no memory.
    pub fn tell(&self) -> Beginning<E, J>
        ensures { result ≡ self.now.published }
    {
        self.writer.published().front()
    }

    /// Ends the board. It waits for the responder to leave.
    pub fn end<R: Wait>(self, rt: &R) {
        let BoardWriter {
            grower: _,
            writer,
            is_lost: _,
        } = self;
        drop(writer.take(rt));
    }
}
