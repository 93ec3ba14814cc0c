//! What a turn comes to, and why an event isn't taken.

use kube_model::{Key, Put, Reason};
use mlb_base::NoMemory;
use object_cache::ApplyFault;
use std::alloc::AllocError;
use thiserror::Error;

/// Why an event isn't taken.
#[derive(Clone, Copy, Debug, Error)]
pub enum TakeFault {
    /// So many services would be held.
    #[error("more services than are held")]
    Limit { count: u64 },
    #[error("out of memory")]
    NoMemory,
}

impl From<NoMemory> for TakeFault {
    ghost use Rattle.std.specs.Prelude.{◌≡◌};
    ghost use Rattle.core_rules.specs.declared.turn.TakeFault.TheVariants.{NoMemory as Memory};

    ghost from_gives = { λ _ e. e ≡ Memory };

    fn from(_refused: NoMemory) -> TakeFault {
        TakeFault::NoMemory
    }
}

impl From<AllocError> for TakeFault {
    ghost use Rattle.std.specs.Prelude.{◌≡◌};
    ghost use Rattle.core_rules.specs.declared.turn.TakeFault.TheVariants.{NoMemory as Memory};

    ghost from_gives = { λ _ e. e ≡ Memory };

    fn from(_refused: AllocError) -> TakeFault {
        TakeFault::NoMemory
    }
}

impl From<ApplyFault> for TakeFault {
    ghost use Rattle.std.specs.Prelude.{◌≡◌};
    ghost use Rattle.core_rules.specs.Faults.{take_fault};

    ghost from_gives = { λ f e. e ≡ take_fault f };

    fn from(fault: ApplyFault) -> TakeFault {
        match fault {
            ApplyFault::Limit { count, .. } => TakeFault::Limit { count },
            ApplyFault::NoMemory => TakeFault::NoMemory,
        }
    }
}

/// What a turn comes to.
#[derive(Drop)]
pub enum Turn {
    /// Nothing is queued.
    Idle,
    /// The service keeps its record; the reason says why it has no address, if it is to have one.
    NoPut { key: Key, pending: Option<Reason> },
    /// The record is to be written.
    Wants { put: Put, pending: Option<Reason> },
}
