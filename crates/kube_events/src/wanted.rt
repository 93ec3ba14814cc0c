//! The addresses that a service asks for.
ghost use Rattle.std.specs.Prelude.{◌≡◌, ◌==◌, map, IfOk};
ghost use Rattle.std.specs.List.{slice_split};
ghost use Rattle.kube_events.specs.Wanted.{spelled_all, listed_of, single_of, wanted_of};

use ip_ranges::{AddressList, parse_address, parse_padded_address};
use kube_model::Wanted;
use mlb_base::{NoMemory, Sequence};
use std::alloc::{AllocError, Global};

/// The addresses that the parts spell, or nothing where one of them spells none.
fn spelled_all(alloc: Global, parts: &[&str]) -> Result<Option<AddressList>, NoMemory>
    ensures { IfOk result (λ found. found ≡ spelled_all (map (λ part. part.now) parts.now)) }
{
    let mut addresses = Sequence::new(alloc);
    for part in parts {
        let Ok(address) = parse_padded_address(part) else {
            return Ok(None);
        };
        addresses.push(address)?;
    }
    Ok(Some(addresses))
}

/// The parts of the text between its commas.
fn comma_parts(alloc: Global, text: &str) -> Result<Vec<&str>, AllocError>
    ensures { IfOk result (λ parts. map (λ part. part.now) parts.items
        ≡ slice_split (λ c. c == 44) text.now) }
{
    text.split(',').collect(alloc)
}

/// What a list of addresses asks for, with commas between them.
fn listed(alloc: Global, text: &str) -> Result<Wanted, NoMemory>
    ensures { IfOk result (λ wanted. wanted ≡ listed_of text.now) }
{
    let parts = comma_parts(alloc, text)?;
    match spelled_all(alloc, parts.as_slice())? {
        Some(addresses) => Ok(Wanted::Asked { addresses }),
        None => Ok(Wanted::Unreadable),
    }
}

/// What one address asks for.
fn single(alloc: Global, text: &str) -> Result<Wanted, NoMemory>
    ensures { IfOk result (λ wanted. wanted ≡ single_of text.now) }
{
    let Ok(address) = parse_address(text) else {
        return Ok(Wanted::Unreadable);
    };
    let mut addresses = Sequence::new(alloc);
    addresses.push(address)?;
    Ok(Wanted::Asked { addresses })
}

/// What the annotation asks for, or else the field. Either asks for nothing where it is empty.
pub(crate) fn wanted_from(alloc: Global, annotation: &str, field: &str) -> Result<Wanted, NoMemory>
    ensures { IfOk result (λ wanted. wanted ≡ wanted_of annotation.now field.now) }
{
    if !annotation.is_empty() {
        listed(alloc, annotation)
    } else if !field.is_empty() {
        single(alloc, field)
    } else {
        Ok(Wanted::NotAsked)
    }
}
