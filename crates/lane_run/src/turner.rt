//! What becomes of a lane's events before they are sent.
ghost use Rattle.std.specs.Prelude.{◌≡◌, IfOk, OnErr};
ghost use Rattle.kube_model.specs.declared.event.Event.{Event};

use kube_model::Event;
use mlb_base::NoMemory;
use std::alloc::Global;

/// Turns each event of a lane into the one that is sent for it. What that is may depend on the
/// state that it has then.
pub trait Turner {
    /// What its events lead from and to.
    ghost State: { Type 0 };

    /// The state that it has.
    ghost state: { Self → State };

    /// The first event leads from the one state to the other, and the second is sent for it.
    ghost Turns: { State → State → Event → Event → Type 0 };

    /// Turns the event. `Err` ends the lane as `NoMemory`, and the state is then as before.
    fn turn(&mut self, alloc: Global, event: Event) -> Result<Event, NoMemory>
        ensures ok { IfOk result (λ sent. Turns (state self.old) (state self.new) event sent) }
        ensures err { OnErr result (state self.new ≡ state self.old) };
}

/// Sends each event as it is.
#[derive(Drop)]
pub struct Unturned;

impl Turner for Unturned {
    ghost use Rattle.std.specs.Prelude.{◌≡◌, ⊤};

    ghost State = { ⊤ };

    ghost state = { λ _. tt };

    ghost Turns = { λ _ _ event sent. sent ≡ event };

    fn turn(&mut self, _alloc: Global, event: Event) -> Result<Event, NoMemory> {
        Ok(event)
    }
}
