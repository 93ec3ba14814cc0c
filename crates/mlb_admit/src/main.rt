//! The admission tool: says of reviews of a configuration's objects whether their changes may be
//! made, or of any lines what they are read as.
#![tactic(auto)]

use admit_run::run_admit;
use mlb_edge::{RealSink, RealSource};
use program_exit::{exit_code, words_given};
use std::io;
use std::process::ExitCode;

fn main(rt: HostRuntime) -> ExitCode {
    let alloc = rt.alloc();
    let words = match words_given(&rt) {
        Ok(words) => words,
        Err(status) => return exit_code(&rt, &status),
    };
    let mut input = RealSource::new(rt.reader());
    let mut out = RealSink::new(io::writer(&rt));
    let status = run_admit(alloc, &words, &mut input, &mut out);
    exit_code(&rt, &status)
}
