//! Lines that are written.
ghost use Rattle.std.specs.Prelude.{◌≤◌, OnOk, IfErr};
ghost use Rattle.mlb_edge.specs.Written.{Grows};
ghost use Rattle.line_run.specs.Text.{line_of, Halts};

use crate::halt::Halt;
use kube_labels::Text;
use mlb_edge::{Sink, put_all};

/// Writes the text on a line of its own.
pub fn write_line<K: Sink>(out: &mut K, text: Text) -> Result<(), Halt>
    ensures ok { OnOk result (Grows (K.written out.old) (K.written out.new) (line_of text)) }
    ensures err { IfErr result (λ halt. Halts halt (line_of text)
        (K.written out.old) (K.written out.new) (K.faults out.old) (K.faults out.new)) }
    ensures later { K.faults out.old ≤ K.faults out.new }
{
    let mut line = text.into_string();
    if line.push('\n').is_err() {
        return Err(Halt::NoMemory);
    }
    match put_all(out, line.as_bytes()) {
        Ok(()) => Ok(()),
        Err(_) => Err(Halt::WriteFault),
    }
}
