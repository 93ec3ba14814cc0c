//! The speaker: announces the addresses of services from its node, and withdraws them, by lines.
#![tactic(auto)]

use program_exit::{exit_code, given_by};
use speaker_run::run_speaker;
use std::process::ExitCode;

fn main(rt: HostRuntime) -> ExitCode {
    let mut owned = match given_by(&rt) {
        Ok(owned) => owned,
        Err(status) => return exit_code(&rt, &status),
    };
    let given = &mut owned;
    let status = run_speaker(
        &rt,
        rt.alloc(),
        &given.words,
        &mut given.files,
        &mut given.input,
        &mut given.out,
    );
    let code = exit_code(&rt, &status);
    drop(status);
    drop(owned);
    code
}
