//! The step that a number says.
ghost use Rattle.std.specs.Prelude.{◌≡◌, IfOk};
ghost use Rattle.world_trial.specs.Drawn.{edit_of, crash_of, step_up, step_down, step_by, step_of};

use crate::service::{numbered, service_of};
use ctl_world::{Edit, ListOrder, Outcome, Step};
use kube_model::{Kind, ListGroup, Object};
use mlb_base::NoMemory;
use std::alloc::Global;

fn edit_of(alloc: Global, k: u64, y: u64, z: u64) -> Result<Edit, NoMemory>
    ensures { IfOk result (λ edit. edit ≡ edit_of k y z) }
{
    if k < 3 {
        let service = service_of(alloc, y, z)?;
        let object = Object::Service(service);
        return Ok(Edit::Set { object });
    }
    let key = numbered(alloc, y)?;
    let kind = Kind::Service;
    Ok(Edit::Delete { kind, key })
}

fn crash_of(z: u64) -> Option<Step>
    ensures { result ≡ crash_of z }
{
    if z == 0 {
        Some(Step::Crash { applied: false })
    } else if z == 1 {
        Some(Step::Crash { applied: true })
    } else {
        None
    }
}

fn turn(outcome: Outcome) -> Option<Step>
    ensures { result ≡ Some (Step.Turn outcome) }
{
    Some(Step::Turn { outcome })
}

fn step_up(k: u64, z: u64) -> Option<Step>
    ensures { result ≡ step_up k z }
{
    if k < 8 {
        let group = ListGroup::Service;
        Some(Step::Take { group })
    } else if k == 8 {
        let group = ListGroup::Config;
        Some(Step::Take { group })
    } else if k < 14 {
        turn(Outcome::Delivered)
    } else if k == 14 {
        let applied = z % 2 == 0;
        turn(Outcome::Lost { applied })
    } else {
        crash_of(z)
    }
}

fn step_down(k: u64) -> Option<Step>
    ensures { result ≡ step_down k }
{
    if k < 9 {
        return None;
    }
    let order = ListOrder::Ascending;
    Some(Step::Restart { order })
}

fn step_by(alloc: Global, k: u64, y: u64, z: u64, is_up: bool) -> Result<Option<Step>, NoMemory>
    ensures { IfOk result (λ step. step ≡ step_by k y z is_up) }
{
    if k < 4 {
        let edit = edit_of(alloc, k, y, z)?;
        return Ok(Some(Step::Edit { edit }));
    }
    if is_up {
        return Ok(step_up(k, z));
    }
    Ok(step_down(k))
}

/// The step that the number says, while the controller is up or down.
#[tactic(auto, unfolding(crate::specs::Drawn::step_of))]
pub(crate) fn step_of(alloc: Global, x: u64, is_up: bool) -> Result<Option<Step>, NoMemory>
    ensures { IfOk result (λ step. step ≡ step_of x is_up) }
{
    step_by(alloc, x % 16, x / 16 % 48, x / 1024 % 8, is_up)
}
