//! The first line of a source, and the reads that it takes.
//!
//! Each function here is proved: a source, a reader and a line are dropped by a call of `drop` in
//! one place.

use mlb_edge::{LINE_LIMIT, LineReader, MemSource};
use std::alloc::Global;
use std::test::Fail;

/// The number and the length of the first line.
fn first_line(alloc: Global, source: &mut MemSource) -> Result<Option<(u64, usize)>, Fail> {
    let mut reader = LineReader::new(alloc)?;
    let found = reader.next_line(source);
    drop(reader);
    match found? {
        Some(line) => {
            let told = (line.number, line.bytes.len());
            drop(line);
            Ok(Some(told))
        }
        None => Ok(None),
    }
}

/// A reader that read on although it holds a line would fail at the second read.
#[test]
fn a_line_is_given_before_the_next_read(rt: HostRuntime) -> Result<(), Fail> {
    let alloc = rt.alloc();
    let failing = vec![in alloc; 2]?;
    let bytes = Vec::from_slice(alloc, b"\na\nb".as_slice())?;
    let mut source = MemSource::new(bytes, 4, failing);
    let found = first_line(alloc, &mut source);
    let has_failed = source.has_failed();
    drop(source);
    let is_given = matches!(found?, Some((2, 1))) && !has_failed;
    assert!(rt; is_given);
    Ok(())
}

/// A reader that looked at each byte again after each read would take hours.
#[test]
fn a_long_line_comes_in_single_bytes(rt: HostRuntime) -> Result<(), Fail> {
    let alloc = rt.alloc();
    let bytes = vec![in alloc; b'x'; LINE_LIMIT]?;
    let mut source = MemSource::new(bytes, 1, Vec::new(alloc));
    let found = first_line(alloc, &mut source);
    drop(source);
    let is_whole = matches!(found?, Some((1, LINE_LIMIT)));
    assert!(rt; is_whole);
    Ok(())
}
