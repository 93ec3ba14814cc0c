//! What is shown, and what is asked of it.
ghost use Rattle.std.specs.Prelude.{◌≡◌, OnOk, OnErr};

use std::alloc::AllocError;

/// A value that follows events, one after the other.
pub trait Follower<E>: Drop {
    /// The value before any event.
    ghost start: { Self };

    /// The value after one event more.
    ghost after: { Self → E → Self };

    /// Takes the event in. After a refusal, by running out of memory or of an event that the value
    /// can't take, the value is unchanged.
    fn follow(&mut self, event: &E) -> Result<(), AllocError>
        ensures ok { OnOk result (self.new ≡ after self.old event.now) }
        ensures err { OnErr result (self.new ≡ self.old) };
}

/// What a responder asks of the value.
pub trait Question<T> {
    type Answer: Drop;

    /// This is an answer to it.
    ghost answers: { Self → T → Self.Answer → Type 0 };

    fn ask(&self, value: &T) -> Self::Answer
        ensures { answers self.now value.now result };
}

/// An answer, with the number of the events by which it was given.
#[derive(Drop)]
pub struct Reply<A: Drop> {
    pub seen: u64,
    pub answer: A,
}
