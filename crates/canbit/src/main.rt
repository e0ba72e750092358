//! The command `canbit`: encodes, decodes and checks frames of a classical CAN bus, and runs scenarios, from standard
//! input to standard output.
//!
//! What a run does, the line of its fault and its exit status are those of `execute` in the crate `canbit_commands`.
//! That `main` connects it to the process's words and standard streams is only tested.
#![tactic(auto)]

use can_program::run_program;
use canbit_commands::{CANBIT, execute};
use std::process::ExitCode;

fn main(rt: HostRuntime) -> ExitCode {
    let alloc = rt.alloc();
    run_program(rt, CANBIT, |words, reader, writer, errors| {
        execute(alloc, words.as_slice(), reader, writer, errors)
    })
}
