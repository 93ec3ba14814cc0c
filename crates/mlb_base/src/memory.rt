//! Running out of memory, and copies that may find none.
ghost use Rattle.std.specs.Prelude.{◌≡◌, IfOk};

use std::alloc::{AllocError, AllocFailed};
use thiserror::Error;

/// There was no memory. What the call that answers it leaves behind is stated by that call.
#[derive(Clone, Copy, Debug, PartialEq, Eq, Error)]
#[error("out of memory")]
pub struct NoMemory;

impl From<AllocError> for NoMemory {
    fn from(_refused: AllocError) -> NoMemory {
        NoMemory
    }
}

impl<T: Drop> From<AllocFailed<T>> for NoMemory {
    fn from(_refused: AllocFailed<T>) -> NoMemory {
        NoMemory
    }
}

/// A value that can be copied where there is memory.
pub trait TryCopy: Drop {
    /// An equal value.
    fn copy(&self) -> Result<Self, NoMemory>
        ensures { IfOk result (λ copied. copied ≡ self.now) };
}

impl TryCopy for u8 {
    fn copy(&self) -> Result<u8, NoMemory> {
        Ok(*self)
    }
}

impl TryCopy for u32 {
    fn copy(&self) -> Result<u32, NoMemory> {
        Ok(*self)
    }
}

impl<T: TryCopy> TryCopy for Option<T> {
    fn copy(&self) -> Result<Option<T>, NoMemory> {
        match self {
            None => Ok(None),
            Some(value) => Ok(Some(value.copy()?)),
        }
    }
}

impl<T: TryCopy, U: TryCopy> TryCopy for (T, U) {
    fn copy(&self) -> Result<(T, U), NoMemory> {
        Ok((self.0.copy()?, self.1.copy()?))
    }
}
