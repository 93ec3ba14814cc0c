//! Sources that may be asked for more only at times.
ghost use Rattle.std.specs.Prelude.{◌≡◌, ◌≤◌, ◌<◌, ◌^◌, ℕ, List, [], ◌∷◌, Option, ⊤, IfOk, OnErr};
ghost use Rattle.std.specs.Prelude.{OnSome, IfErr, IfSome, IfNone, IsErrOf};
ghost use Rattle.std.specs.Io.KnownBytes.{IsAtEnd};
ghost use Rattle.mlb_edge.specs.Causes.{Rose};
ghost use Rattle.mlb_edge.specs.InputLines.{Follows, to_come, EndsAs, Whole, LongLine, LongInput};
ghost use Rattle.mlb_edge.specs.InputLines.{HoldsLine, Passes};
ghost use Rattle.mlb_edge.specs.Reading.{Reading};
ghost use Rattle.mlb_edge.specs.Rows.{HasNoNewline};

use mlb_edge::{Line, LineEnd, LineReader, Sink, Source};

/// A source of lines that may be asked for more only at times, as a live bridge, which sends the
/// next line once it has seen what the one before came to.
///
/// It can be read by `next_line` alone, and only beside the sink itself. So a run over any such
/// source shows at each call that may ask it for more that it may be asked.
pub trait PacedSource<K: Sink> {
    /// The bytes not yet read, where the source tells them.
    ghost left: { Self → Option (List ℕ) };

    /// A text that no read changes, where the source has one.
    ghost name: { Self → Option (List ℕ) };

    /// How often reading has failed.
    ghost faults: { Self → ℕ };

    /// It may be asked for more than this reader holds, when this is the sink.
    ghost may_read: { Self → Reading → K → Type 0 };

    /// The next line, as `LineReader::next_line` gives it.
    fn next_line(&mut self, reader: &mut LineReader, out: &K) -> Result<Option<Line>, LineEnd>
        // The source is asked for more only where no whole line is held.
        requires paced { (HoldsLine reader.old → ⊥) → may_read self.old reader.old out.now }
        ensures unread { HoldsLine reader.old → self.new ≡ self.old }

        ensures line { IfOk result (λ next. IfSome next (λ line.
            Follows (to_come reader.old (left self.old)) (line ∷ [])
            (to_come reader.new (left self.new)))) }
        ensures near { IfOk result (λ next. OnSome next
            ((reader.old.passed < reader.new.passed) × (reader.new.passed ≤ 2 ^ 40))) }

        // At the end of the input no line is left.
        ensures end { IfOk result (λ next. IfNone next
            (EndsAs (to_come reader.old (left self.old)) Whole)) }
        ensures at_end { IfOk result (λ next. IfNone next (IsAtEnd (left self.new))) }

        ensures line_limit { IfErr result (λ e. (number : ℕ) → e ≡ LineEnd.LineLimit number
            → EndsAs (to_come reader.old (left self.old)) (LongLine number)) }
        ensures input_limit { IsErrOf result LineEnd.InputLimit
            → EndsAs (to_come reader.old (left self.old)) LongInput }
        ensures read_fault { IsErrOf result LineEnd.ReadFault
            → Rose (faults self.old) (faults self.new) }
        ensures err { OnErr result
            (Follows (to_come reader.old (left self.old)) [] (to_come reader.new (left self.new))) }

        // No byte is lost, and where reading failed no whole line is held.
        ensures passes { Passes reader.old reader.new (left self.old) (left self.new) }
        ensures waits { IsErrOf result LineEnd.ReadFault → HasNoNewline reader.new.held }
        ensures later { faults self.old ≤ faults self.new }
        ensures name { name self.new ≡ name self.old };
}

/// What is only a source may be read on at any time.
impl<S: Source, K: Sink> PacedSource<K> for S {
    ghost left = { S.left };

    ghost name = { S.name };

    ghost faults = { S.faults };

    ghost may_read = { λ _ _ _. ⊤ };

    fn next_line(&mut self, reader: &mut LineReader, _out: &K) -> Result<Option<Line>, LineEnd> {
        reader.next_line(self)
    }
}
