//! Who answers by what is published.
ghost use Rattle.std.specs.Prelude.{◌≡◌, ◌⊎◌, [], length, fold, IfSome, IfNone};
ghost use mathlib.Core.List.{IsPrefix};

use crate::follower::{Follower, Question, Reply};
use crate::posted::Posted;
use core::mem;
use crossbeam_utils::rule::Unruled;
use growing_list::{Beginning, Naming};
use left_right::reader::Reader;
use std::marker::Model;

pub(crate) type PostedReader<T, E, J> = Reader<Posted<T, E, J>, (), Unruled>;

/// The reader of a board. Contracts see the events that it has seen, and the longest list of events
/// that it was told of.
#[derive(Drop)]
pub struct Responder<T: Follower<E>, E: Drop, J: Naming> {
    reader: Option<PostedReader<T, E, J>>,
    seen: Beginning<E, J>,
    told: Beginning<E, J>,
}

impl<T: Follower<E>, E: Drop, J: Naming> Model for Responder<T, E, J> {
    ghost use Rattle.shown_board.specs.Boarded.{Sight};

    ghost Value = { Sight E };

    ghost view = { λ r. record { seen = r.seen; told = r.told } };
}

impl<T: Follower<E>, E: Drop, J: Naming> Responder<T, E, J> {
    pub(crate) fn new(reader: PostedReader<T, E, J>, none: Beginning<E, J>) -> Responder<T, E, J>
        ensures { (result.seen ≡ none) × (result.told ≡ none) }
    {
        let told = none.again();
        Responder {
            reader: Some(reader),
            seen: none,
            told,
        }
    }

    /// What it has seen, as a beginning of the appended events.
    pub fn seen(&self) -> Beginning<E, J>
        ensures { result ≡ self.now.seen }
    {
        self.seen.again()
    }

    /// Takes in what was told: from now on no answer is by less. It takes no memory.
    pub fn learn(&mut self, told: Beginning<E, J>)
        ensures seen { self.new.seen ≡ self.old.seen }
        ensures told { IsPrefix self.old.told self.new.told × IsPrefix told self.new.told }
        ensures one { (self.new.told ≡ self.old.told) ⊎ (self.new.told ≡ told) }
    {
        if self.told.begins(&told) {
            self.told = told;
        }
    }

    /// The answer by the value after the events that are then seen. These begin with all that were
    /// seen before, and with all that it was told of. `None` is free: nothing is read where the
    /// writer has ended. It takes no memory but what the question takes.
    pub fn respond<Q: Question<T>>(&mut self, question: &Q) -> Option<Reply<Q::Answer>>
        ensures none { IfNone result (self.new ≡ self.old) }
        ensures told { self.new.told ≡ self.old.told }
        ensures later { IfSome result (λ _. IsPrefix self.old.seen self.new.seen
            × IsPrefix self.old.told self.new.seen) }
        ensures seen { IfSome result (λ reply. reply.seen ≡ length self.new.seen) }
        ensures answer { IfSome result
            (λ reply. Q.answers question.now (fold T.after T.start self.new.seen) reply.answer) }
    {
        match self.reader.take()?.enter_as::<Unruled>() {
            Err(reader) => {
                drop(self.reader.replace(reader));
                None
            }
            Ok(reading) => {
                let reply = self.reply(question, reading.get());
                drop(self.reader.replace(reading.leave()));
                reply
            }
        }
    }

    /// The answer by what is posted, where that is no less than what was seen and told.
    fn reply<Q: Question<T>>(
        &mut self,
        question: &Q,
        posted: &Posted<T, E, J>,
    ) -> Option<Reply<Q::Answer>>
        ensures none { IfNone result (self.new ≡ self.old) }
        ensures told { self.new.told ≡ self.old.told }
        ensures later { IfSome result (λ _. IsPrefix self.old.seen self.new.seen
            × IsPrefix self.old.told self.new.seen) }
        ensures seen { IfSome result (λ reply. reply.seen ≡ length self.new.seen) }
        ensures answer { IfSome result
            (λ reply. Q.answers question.now (fold T.after T.start self.new.seen) reply.answer) }
    {
        if !self.seen.begins(&posted.front) || !self.told.begins(&posted.front) {
            return None;
        }
        drop(mem::replace(&mut self.seen, posted.front.again()));
        Some(Reply {
            seen: self.seen.len(),
            answer: question.ask(&posted.value),
        })
    }
}
