//! The commands of the program `canhold`, over any reader and writers. (docs/CONFORMANCE.md)
//!
//! From `document.rt` on, it reads a document of the conformance kit, and writes the reference's transcripts or
//! verdicts. From `play.rt` on, the reference is an adapter: it plays the cases of a runner, line by line.
//!
//! | File | What it has | Defined in |
//! |---|---|---|
//! | `words.rt` | [`Asked`]: what the words of a command line ask for, a subcommand ([`Chosen`]), the help text or the version | `specs/Words.antt` |
//! | `help.rt` | [`HELP`], the help text; [`VERSION`] | |
//! | `fault.rt` | [`CanholdFault`]: why a subcommand did not succeed | `specs/Status.antt` |
//! | `answering.rt` | reads a kit document, and writes the output for it | `specs/Answers.antt` |
//! | `executing.rt` | [`execute`]: a run, its fault line and its exit status | `specs/Answers.antt` |
//! | `document.rt` | [`Document`]: cases and transcripts | `specs/Documents.antt` |
//! | `expecting.rt` | [`expected`]: a document followed by the transcripts of the reference | `specs/Expectations.antt` |
//! | `judging.rt` | [`judged`]: a verdict for each transcript of a document, and their count | `specs/Judgements.antt` |
//! | `naming.rt` | [`case_of`]: the name of the case that an invalid field belongs to | `specs/CaseNames.antt` |
//! | `transcript.rt` | [`push_transcript`]: the table of a transcript | `specs/Transcripts.antt` |
//! | `elements.rt` | its lists, one element a line | `specs/Transcripts.antt` |
//! | `verdict.rt` | [`push_verdict`]: the line of a verdict | `specs/Verdicts.antt` |
//! | `difference.rt` | actual and expected values | `specs/Verdicts.antt` |
//! | `standing.rt` | the state of the reference: words for phases, parts and rules | `specs/Standings.antt` |
//! | `tally.rt` | [`push_count`]: the line that counts the cases of a [`Tally`] | `specs/Counts.antt` |
//! | `play.rt` | [`play_lines`]: replies to each line of a runner before it reads on | `specs/Plays.antt` |
//! | `adapter.rt` | the reference between two lines, and the reply to one | `specs/Adapters.antt` |
//! | `command.rt` | the commands in the lines of a runner | `specs/Commands.antt` |
//!
//! The contract of `execute` defines what was read and written, for each outcome. An append fails only if an allocation
//! fails.
#![tactic(auto)]

mod adapter;
mod answering;
mod command;
mod difference;
mod document;
mod elements;
mod executing;
mod expecting;
mod fault;
mod help;
mod judging;
mod naming;
mod play;
mod standing;
mod tally;
mod transcript;
mod verdict;
mod words;

pub use document::Document;
pub use executing::{CANHOLD, execute};
pub use expecting::expected;
pub use fault::CanholdFault;
pub use help::{HELP, VERSION};
pub use judging::{Judgement, judged};
pub use naming::case_of;
pub use play::play_lines;
pub use tally::{Tally, push_count};
pub use transcript::push_transcript;
pub use verdict::push_verdict;
pub use words::{Asked, Chosen, Question};
