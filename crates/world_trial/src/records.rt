//! The services that are stored, and their addresses.
ghost use Rattle.std.specs.Prelude.{◌≡◌, ◌++◌, IfOk, OnOk};
ghost use Rattle.world_trial.specs.Lines.{line_in, lines_in};

use crate::report::RecordLines;
use ctl_world::Store;
use kube_model::Object;
use mlb_base::{NoMemory, Sequence, TryCopy};
use status_store::Stored;
use std::alloc::Global;

fn push_line(lines: &mut RecordLines, object: &Object) -> Result<(), NoMemory>
    ensures { OnOk result (lines.new ≡ lines.old ++ line_in object.now) }
{
    if let Object::Service(service) = object {
        let key = service.key.copy()?;
        let addresses = service.holding.addresses.copy()?;
        lines.push((key, addresses))?;
    }
    Ok(())
}

fn push_lines(lines: &mut RecordLines, stored: &[Stored]) -> Result<(), NoMemory>
    ensures { OnOk result (lines.new ≡ lines.old ++ lines_in stored.now) }
{
    for held in stored {
        push_line(lines, &held.object)?;
    }
    Ok(())
}

/// The services that are stored, by key.
pub(crate) fn lines_in(alloc: Global, store: &Store) -> Result<RecordLines, NoMemory>
    ensures { IfOk result (λ lines. lines ≡ lines_in store.now.objects) }
{
    let mut lines = Sequence::new(alloc);
    push_lines(&mut lines, store.list().as_slice())?;
    Ok(lines)
}
