//! What `canbit` does, over any reader and writers: which subcommand the words of the command line name, its input and
//! output, the line of its fault, and the exit status.
//!
//! | File | What it has | Defined in |
//! |---|---|---|
//! | `subcommands.rt` | [`Chosen`], the table of subcommands | `specs/Subcommands.antt` |
//! | `words.rt` | [`chosen`], which of them the words name, as `clap` reads them; [`WordFault`] | `specs/Words.antt` |
//! | `help.rt` | the help texts about input, output, faults and statuses | |
//! | `program.rt` | [`execute`], what the words ask for is done: for each status what was read and written; [`CANBIT`] | `specs/Answers.antt` |
//! | `fault.rt` | [`CanbitFault`], why a subcommand did not do all that it was asked | `specs/Status.antt` |
//! | `run.rt` | a scenario is read and run, and its report written | `specs/Answers.antt`, `specs/Ends.antt` |
//!
//! The contract of `chosen` uses `clap`'s definition of a simple command, without the parser.
#![tactic(auto)]

mod fault;
mod help;
mod program;
mod run;
mod subcommands;
mod words;

pub use fault::CanbitFault;
pub use program::{CANBIT, execute};
pub use subcommands::Chosen;
pub use words::{WordFault, chosen};
