//! The value that is published, and what is applied to it.
ghost use Rattle.std.specs.Prelude.{◌≡◌, ◌++◌, ◌∷◌, []};

use crate::follower::Follower;
use core::mem;
use growing_list::{Beginning, Naming};
use left_right::Absorb;
use std::alloc::AllocError;
use std::marker::Model;

/// A value with the beginning of the events after which it is what it is. Contracts see these
/// events.
#[derive(Drop)]
pub struct Posted<T: Follower<E>, E, J: Naming> {
    pub(crate) value: T,
    pub(crate) front: Beginning<E, J>,
}

impl<T: Follower<E>, E, J: Naming> Model for Posted<T, E, J> {
    ghost use Rattle.std.specs.Prelude.{◌≡◌, List, fold};

    ghost Value = { List E };

    ghost view = { λ p. p.front };

    ghost invariant = { λ p. p.value ≡ fold T.after T.start p.front };
}

/// An event, with the beginning that it ends.
#[derive(Drop)]
pub struct Step<E: Drop, J: Naming> {
    pub(crate) event: E,
    pub(crate) front: Beginning<E, J>,
}

impl<E: Drop, J: Naming> Model for Step<E, J> {
    ghost use Rattle.shown_board.specs.Boarded.{Ending, EndsBy};

    ghost Value = { Ending E };

    ghost view = { λ s. record { event = s.event; front = s.front } };

    ghost invariant = { λ s. EndsBy s.front s.event };
}

impl<E: Drop, J: Naming> Step<E, J> {
    pub(crate) fn into_event(self) -> E
        ensures { result ≡ self.event }
    {
        self.event
    }
}

/// A published value as its writer knows it. That its list is what was taken in is a law of it.
pub trait Post<E: Drop, J: Naming>: Absorb<Step<E, J>> + Drop {
    ghost use Rattle.std.specs.Prelude.{◌≡◌, ◌++◌, List, fold};
    ghost use Rattle.shown_board.specs.Boarded.{Ending, events_of};

    /// The events after which it is what it is.
    ghost list: { Self → List E };

    fn front(&self) -> Beginning<E, J>
        ensures { result ≡ list self.now };

    ghost takes_in: { (old new : Self) (endings : List (Ending E))
        → Self.state new ≡ fold Self.applied (Self.state old) endings → list new ≡ list old ++ events_of endings };
}

impl<T: Follower<E>, E: Drop, J: Naming> Post<E, J> for Posted<T, E, J> {
    ghost use Rattle.shown_board.specs.Taken.{all_taken};

    ghost list = { λ p. p };

    fn front(&self) -> Beginning<E, J> {
        self.front.again()
    }

    ghost takes_in = { all_taken };
}

impl<T: Follower<E>, E: Drop, J: Naming> Absorb<Step<E, J>> for Posted<T, E, J> {
    // A clause reads an array as a list, of any length.
    type State = [E; 0];

    ghost use Rattle.shown_board.specs.Boarded.{with_event};

    ghost state = { λ p. p };

    ghost applied = { with_event };

    // An event that isn't the next one is none of this board's, which doesn't happen.
    fn absorb_first(
        &mut self,
        operation: &Step<E, J>,
        _other: &Posted<T, E, J>,
    ) -> Result<(), AllocError> {
        if operation.front.len() - 1 != self.front.len() || !self.front.begins(&operation.front) {
            return Err(AllocError);
        }
        self.value.follow(&operation.event)?;
        drop(mem::replace(&mut self.front, operation.front.again()));
        Ok(())
    }
}
