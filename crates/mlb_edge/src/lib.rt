//! The outside of a program: sources, sinks and files that count their faults, and lines read from
//! a source.
//!
//! Each trait has fakes in memory, which tell what they hold, and an adapter to the real device,
//! which tells nothing.
//!
//! After every refusal of `next_line` the lines still to come are the same, so no condition on
//! earlier refusals is needed. A last line without its 0x0A is given once a read has told the end.
//!
//! `MemFiles::add` of a name that is there already: the newest file counts, and inputs that are
//! open stay as they are. An `open` that finds no memory leaves all unchanged, and isn't counted as
//! a call.
//!
//! A count of faults or of calls stands still at the end of its u64.
//!
//! A source says by a ghost member whether it is known that no read of it fails; what is known of
//! no device is that it is unfailing.
#![tactic(auto)]

mod files;
mod line_reader;
mod lines;
mod mem_files;
mod memory;
mod real;
mod real_files;
mod sink;
mod source;
mod unfailing;

pub use files::{Files, OpenEnd};
pub use line_reader::{LineReader, reads_all_lines};
pub use lines::{INPUT_LIMIT, LINE_LIMIT, Line, LineEnd};
pub use mem_files::{MemFiles, MemInput};
pub use memory::{MemSink, MemSource};
pub use mlb_base::{ByteList, NoMemory};
pub use real::{RealSink, RealSource};
pub use real_files::{NamedSource, RealFiles};
pub use sink::{Sink, WriteFailed, put_all};
pub use source::{ReadFailed, Source};
pub use unfailing::{SafeSink, SafeSource};
