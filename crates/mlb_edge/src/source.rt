//! Where a program reads bytes from.

ghost use Rattle.std.specs.Prelude.{◌≡◌, ℕ, Bool, true, List, Option, IsOk};
ghost use Rattle.std.specs.Io.{ReadsAtMost};
ghost use Rattle.std.specs.Io.KnownBytes.{ReadConsumes};
ghost use Rattle.mlb_edge.specs.Causes.{HasCause};

use thiserror::Error;

/// A read failed, and nothing was taken from the source.
#[derive(Clone, Copy, Debug, PartialEq, Eq, Error)]
#[error("reading failed")]
pub struct ReadFailed;

/// Gives bytes in order, and counts its faults. The count never falls.
pub trait Source {
    /// The bytes not yet read, where the source tells them.
    ghost left: { Self → Option (List ℕ) };

    /// A text that no read changes, where the source has one.
    ghost name: { Self → Option (List ℕ) };

    /// How often reading has failed.
    ghost faults: { Self → ℕ };

    /// It is known that no read fails. No read changes this.
    ghost unfailing: { Self → Bool };

    /// Reads into the front of `buf`. `Ok(n)` gives the first n bytes of what is left, and `Ok(0)`
    /// for a buffer that isn't empty says that nothing is left. Where reading fails, what is left
    /// stays as it was.
    fn read(&mut self, buf: &mut [u8]) -> Result<usize, ReadFailed>
        ensures bound { ReadsAtMost result buf.new }
        ensures bytes { ReadConsumes (left self.old) (left self.new) result buf.new }
        ensures name { name self.new ≡ name self.old }
        ensures cause { HasCause (faults self.old) (faults self.new) result }
        ensures unfailing { unfailing self.new ≡ unfailing self.old }
        ensures well { unfailing self.old ≡ true → IsOk result };
}
