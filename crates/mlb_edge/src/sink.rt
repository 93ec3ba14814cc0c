//! Where a program writes bytes to.

ghost use Rattle.std.specs.Prelude.{◌≤◌, ◌<◌, ℕ, List, Option, length, IfOk, OnOk, OnErr};
ghost use Rattle.mlb_edge.specs.Causes.{HasCause};
ghost use Rattle.mlb_edge.specs.Written.{Grows, GrowsInPart, TakesSome, WriteGrows};

use thiserror::Error;

/// A write failed, and nothing of its piece was taken.
#[derive(Clone, Copy, Debug, PartialEq, Eq, Error)]
#[error("writing failed")]
pub struct WriteFailed;

/// Takes bytes in order, and counts its faults. The count never falls.
pub trait Sink {
    /// The bytes written, where the sink tells them. It may stop telling, and never begins.
    ghost written: { Self → Option (List ℕ) };

    /// How often writing has failed.
    ghost faults: { Self → ℕ };

    /// Appends a front part of the piece, at least one byte of a piece that isn't empty, and gives
    /// its length. Where writing fails nothing was appended.
    fn write(&mut self, piece: &[u8]) -> Result<usize, WriteFailed>
        ensures bound { IfOk result (TakesSome piece.now) }
        ensures bytes { WriteGrows (written self.old) (written self.new) result piece.now }
        ensures cause { HasCause (faults self.old) (faults self.new) result };
}

/// Writes the whole piece, in as many writes as the sink wants. Where one fails, a part of the
/// piece was written that isn't all of it.
pub fn put_all<K: Sink>(out: &mut K, piece: &[u8]) -> Result<(), WriteFailed>
    ensures ok { OnOk result (Grows (K.written out.old) (K.written out.new) piece.now) }
    ensures err { OnErr result (GrowsInPart (K.written out.old) (K.written out.new) piece.now) }
    ensures cause { HasCause (K.faults out.old) (K.faults out.new) result }
{
    let mut done = 0;
    while done < piece.len() {
        done += out.write(&piece[done..])?;
    }
    Ok(())
}
