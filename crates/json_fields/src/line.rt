//! The value of a line.
ghost use Rattle.std.specs.Prelude.{◌≡◌, IfOk, option_map};
ghost use Rattle.serde_json.specs.View.{view};
ghost use Rattle.json_values.specs.Line.{value_of_line};

use mlb_base::NoMemory;
use serde_json::Value;
use std::alloc::Global;

/// The JSON value that the bytes are the text of (RFC 8259), or nothing where they are that of
/// none.
pub fn read_value(alloc: Global, line: &[u8]) -> Result<Option<Value>, NoMemory>
    ensures { IfOk result (λ found. option_map view found ≡ value_of_line line.now) }
{
    match Value::from_slice(alloc, line) {
        Ok(value) => Ok(Some(value)),
        Err(fault) if fault.is_memory() => Err(NoMemory),
        Err(_) => Ok(None),
    }
}
