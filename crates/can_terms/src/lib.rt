//! The data types that controllers, buses, documents and circuits share: phases and events with their numbers and words,
//! injected bit errors, test cases and transcripts.
//!
//! | File | What it has | Defined in |
//! |---|---|---|
//! | `event.rt` | [`Event`], what a controller reports in a bit time; [`EventKind`], the same without its frame; [`ErrorKind`] | `specs/Codes.antt`, `specs/Words.antt` |
//! | `phase_kind.rt` | [`PhaseKind`], the phases of a controller | `specs/Codes.antt`, `specs/Words.antt` |
//! | `hit.rt` | [`Hit`], an injected bit error, and the order of hits | `specs/Hits.antt` |
//! | `script.rt` | [`Script`], a test case as it is played | `specs/Cases.antt` |
//! | `timed.rt` | [`Timed`], something with its bit time | |
//! | `transcript.rt` | [`Transcript`], what a controller did in a case, and whether its times rise | `specs/Cases.antt` |
//!
//! `specs/Sound.antt` defines which lists are accepted, of hits and of offers. docs/NAMES.md lists the numbers and words
//! of phases and events.
#![tactic(auto)]

mod event;
mod hit;
mod phase_kind;
mod script;
mod timed;
mod transcript;

pub use event::{ErrorKind, Event, EventKind};
pub use hit::Hit;
pub use phase_kind::PhaseKind;
pub use script::{Script, Start, TesterLevel};
pub use timed::Timed;
pub use transcript::{Counters, Ending, Transcript};
