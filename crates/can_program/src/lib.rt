//! What the programs share: a run in its process, and how it ends: the line of its fault on standard error, and its exit
//! status. (docs/CODES.md) The faults of a program are its own; they have the trait [`RunFault`]. The line has the program's
//! name and the fault's code with its place, and, unless the program is `canbit`, what is wrong in words.
//!
//! | File | What it has | Defined in |
//! |---|---|---|
//! | `program.rt` | [`Program`], a program's name and whether it prints words | |
//! | `fault.rt` | [`RunFault`], what a fault has to say; those of streams and of words, [`WordsFault`] | `specs/Status.antt` |
//! | `ending.rt` | [`conclude`], [`conclude_of`] and [`refuse`], how a run ends; [`write_help`] | `specs/Status.antt` |
//! | `process.rt` | [`run_program`], a run on the words and streams of its process; [`words_or_status`] | `specs/Status.antt` |
#![tactic(auto)]

mod ending;
mod fault;
mod process;
mod program;

pub use ending::{conclude, conclude_of, refuse, write_help};
pub use fault::{RunFault, WordsFault};
pub use process::{run_program, words_or_status};
pub use program::Program;
