//! The command `canplan`: the worst-case response times of the messages of a network, from standard input to standard
//! output.
//!
//! What a run does over any reader and writers is stated in the crate `can_plan_text`. That `main` connects its
//! `execute` to the process's words and standard streams is only tested.
#![tactic(auto)]

use can_plan_text::{CANPLAN, execute};
use can_program::run_program;
use std::process::ExitCode;

fn main(rt: HostRuntime) -> ExitCode {
    let alloc = rt.alloc();
    run_program(rt, CANPLAN, |words, reader, writer, errors| {
        execute(alloc, words.as_slice(), reader, writer, errors)
    })
}
