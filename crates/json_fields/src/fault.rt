//! What is wrong with a field.
ghost use Rattle.std.specs.Prelude.{◌≡◌, IfOk};
ghost use Rattle.json_fields.specs.Path.{joined};
ghost use Rattle.json_fields.specs.declared.fault.FieldFault.TheVariants.{NoMemory};

use kube_labels::Text;
use mlb_base::NoMemory;
use std::alloc::{AllocError, AllocFailed, Global};

/// Why a field was not read.
#[derive(Debug, Drop)]
pub enum FieldFault {
    /// The field at this path is invalid.
    Faulty(Text),
    NoMemory,
}

impl From<NoMemory> for FieldFault {
    ghost from_gives = { λ _ e. e ≡ NoMemory };

    fn from(_refused: NoMemory) -> FieldFault {
        FieldFault::NoMemory
    }
}

impl From<AllocError> for FieldFault {
    ghost from_gives = { λ _ e. e ≡ NoMemory };

    fn from(_refused: AllocError) -> FieldFault {
        FieldFault::NoMemory
    }
}

impl<T: Drop> From<AllocFailed<T>> for FieldFault {
    ghost from_gives = { λ _ e. e ≡ NoMemory };

    fn from(_refused: AllocFailed<T>) -> FieldFault {
        FieldFault::NoMemory
    }
}

/// A place, and a path from there on.
fn joined_text(alloc: Global, place: &str, rest: &str) -> Result<Text, NoMemory>
    ensures { IfOk result (λ path. path ≡ joined place.now rest.now) }
{
    let mut path = String::from_str(alloc, place)?;
    match rest.as_bytes() {
        [] | [b'[', ..] => {}
        _ => path.push('.')?,
    }
    path.push_str(rest)?;
    Ok(Text::from_string(path))
}

impl FieldFault {
    ghost use Rattle.json_fields.specs.Reading.{Names, Moves};

    pub fn at(alloc: Global, path: &str) -> FieldFault
        ensures { Names result path.now }
    {
        match Text::new(alloc, path) {
            Ok(path) => FieldFault::Faulty(path),
            Err(_) => FieldFault::NoMemory,
        }
    }

    /// The same fault, seen from where the value stands.
    pub fn within(self, alloc: Global, place: &str) -> FieldFault
        ensures { Moves self place.now result }
    {
        match self {
            FieldFault::Faulty(path) => match joined_text(alloc, place, path.as_str()) {
                Ok(path) => FieldFault::Faulty(path),
                Err(_) => FieldFault::NoMemory,
            },
            FieldFault::NoMemory => FieldFault::NoMemory,
        }
    }
}
