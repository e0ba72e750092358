//! The command `cangates`: writes a CAN controller as a circuit to standard output.
//!
//! The contract of [`execute`](executing::execute) defines a run over any writers. That `main` connects it to the
//! command line and the standard streams is only tested.
//!
//! | File | What it has | Defined in |
//! |---|---|---|
//! | `words.rt` | [`Asked`](words::Asked): what the words of a command line ask for, a file in one of its [`Form`](words::Form)s, the help text or the version | `specs/Words.antt` |
//! | `help.rt` | [`HELP`](help::HELP), the help text; [`VERSION`](help::VERSION) | |
//! | `names.rt` | the names of the controller's ports and registers, and [`words_are_the_ports`](names::words_are_the_ports) | `specs/Ports.antt` |
//! | `file.rt` | the text of a file | `specs/Files.antt` |
//! | `executing.rt` | [`execute`](executing::execute): a run, its fault line and its exit status | `specs/Files.antt` |
#![tactic(auto)]

mod executing;
mod file;
mod help;
mod names;
mod words;

use can_program::run_program;
use executing::{CANGATES, execute};
use std::process::ExitCode;

fn main(rt: HostRuntime) -> ExitCode {
    let alloc = rt.alloc();
    run_program(rt, CANGATES, |words, _reader, writer, errors| {
        execute(alloc, words.as_slice(), writer, errors)
    })
}
