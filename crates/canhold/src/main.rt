//! The command `canhold`: the proved reference of the conformance kit, from standard input to standard output.
//!
//! What a run does over any reader and writers is stated in the crate `canhold_commands`. That `main` connects its
//! `execute` to the process's words and standard streams is only tested.
#![tactic(auto)]

use can_program::run_program;
use canhold_commands::{CANHOLD, execute};
use std::process::ExitCode;

fn main(rt: HostRuntime) -> ExitCode {
    let alloc = rt.alloc();
    run_program(rt, CANHOLD, |words, reader, writer, errors| {
        execute(alloc, words.as_slice(), reader, writer, errors)
    })
}
