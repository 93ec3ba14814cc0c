//! What fences come to, row by row. A row that begins with `#` says what follows, and is written as
//! it stands.
//!
//! - `start NAME`: a fence of this name begins.
//! - `put NAMESPACE NAME VERSION`: its program wants a put without addresses of this service at this version.
//! - An object: what the fence is told.
//!
//! Each is answered by the line that is written, by what the program hears, or by `nothing`; or by
//! why the row is none.
#![tactic(auto)]

mod case;

use anyhow::Result;
use case::Case;
use std::alloc::Global;
use std::io::Input;

fn show_row(rt: &impl Print, case: &mut Case, row: &str) -> Result<()> {
    if row.as_bytes().starts_with(b"#") {
        return Ok(println!(rt; "{row}")?);
    }
    match case.answer(row) {
        Ok(text) => Ok(println!(rt; "{text}")?),
        Err(fault) => Ok(println!(rt; "{fault}")?),
    }
}

fn show_rows(
    rt: &(impl Print + AllocGlobal + Input),
    alloc: Global,
    case: &mut Case,
) -> Result<()> {
    for row in rt.lines(alloc) {
        show_row(rt, case, row?.as_str())?;
    }
    Ok(())
}

/// The case is dropped in one place: each way out of a function that holds one would drop it anew.
fn main(rt: HostRuntime) -> Result<()> {
    let alloc = rt.alloc();
    let mut case = Case::new(alloc);
    let outcome = show_rows(&rt, alloc, &mut case);
    drop(case);
    outcome
}
