//! The controller: gives addresses to the services of a watch stream, and writes them as lines.
#![tactic(auto)]

use controller_run::run_controller;
use fenced_run::{asks_for_fence, run_fenced};
use program_exit::{exit_code, given_by};
use std::process::ExitCode;

fn main(rt: HostRuntime) -> ExitCode {
    let mut owned = match given_by(&rt) {
        Ok(owned) => owned,
        Err(status) => return exit_code(&rt, &status),
    };
    let given = &mut owned;
    let status = if asks_for_fence(&given.words) {
        run_fenced(rt.alloc(), &given.words, &mut given.input, &mut given.out)
    } else {
        run_controller(
            &rt,
            rt.alloc(),
            &given.words,
            &mut given.files,
            &mut given.input,
            &mut given.out,
        )
    };
    let code = exit_code(&rt, &status);
    drop(status);
    drop(owned);
    code
}
