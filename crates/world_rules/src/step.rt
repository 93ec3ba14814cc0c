//! What happens in a world.

use kube_model::ListGroup;
use mlb_base::NoMemory;
use status_store::{Edit, Outcome};
use thiserror::Error;

/// What happens next.
#[derive(Drop)]
pub enum Step {
    /// Somebody changes an object of the cluster.
    Edit { edit: Edit },
    /// The controller takes the next event of a lane.
    Take { group: ListGroup },
    /// The controller makes a turn. Where it wants a put, the put goes so, and its reply is heard.
    Turn { outcome: Outcome },
    /// The controller stops. The put that its next turn would want has reached the store, if it is
    /// applied.
    Crash { applied: bool },
    /// The controller is started anew, and is shown the lists of what is stored, in this order.
    Restart { order: ListOrder },
    /// The watch of a lane expires: what was pending in it is lost, and the list of what is stored
    /// is shown anew, in this order.
    Expire { group: ListGroup, order: ListOrder },
}

/// In which order a list shows what is stored. An API server owes none.
#[derive(Clone, Copy)]
pub enum ListOrder {
    /// By kind, and then by namespace and name.
    Ascending,
    /// The other way round.
    Descending,
}

/// Why a step isn't made.
#[derive(Clone, Copy, Debug, Error)]
pub enum StepFault {
    /// There is no such step in this state.
    #[error("there is no such step in this state")]
    NotEnabled,
    /// One service more would be held than may be, or the versions are used up.
    #[error("a limit is passed")]
    Limit,
    #[error("out of memory")]
    NoMemory,
}

impl From<NoMemory> for StepFault {
    ghost use Rattle.std.specs.Prelude.{◌≡◌};
    ghost use Rattle.world_rules.specs.declared.step.StepFault.TheVariants.{NoMemory as Memory};

    ghost from_gives = { λ _ e. e ≡ Memory };

    fn from(_refused: NoMemory) -> StepFault {
        StepFault::NoMemory
    }
}
