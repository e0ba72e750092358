//! Reads cases and transcripts of the conformance kit, and reads and writes the words of its documents and line
//! protocol. (docs/CONFORMANCE.md, "Documents")
//!
//! [`read_cases`] reads the tables of the array `case`, and [`read_transcripts`] those of `transcript`. A case may not
//! have the name of an earlier one. A transcript belongs to a case of its document; the tables of these cases are
//! passed as values. An invalid document is refused, and the error names its first invalid field in the order of the
//! tests: `transcript[3].events[1]`.
//!
//! | File | What it has | Defined in |
//! |---|---|---|
//! | `words/events.rt` | [`read_event`], [`read_state`] | `specs/Events.antt`, can_fault's `specs/Words.antt` |
//! | `words/event_texts.rt` | [`push_event`], [`push_state`] | `specs/Events.antt`, can_fault's `specs/Words.antt` |
//! | `words/levels.rt` | [`push_levels`]: levels, written as tokens | `specs/LevelTokens.antt` |
//! | `words/reading.rt` | [`read_levels`]: levels, read from tokens | `specs/LevelTexts.antt` |
//! | `words/names.rt` | [`is_name`], [`LONGEST_NAME`] | `specs/Names.antt` |
//! | `tables.rt` | [`text_of`], [`is_of_version_one`]: what tables of cases and of transcripts have in common | `specs/CaseWords.antt`, `specs/Lists.antt` |
//! | `strings.rt` | [`read_strings`]: levels in strings | `specs/Lists.antt` |
//! | `elements.rt` | [`read_elements`] over the trait [`Element`]: lists whose elements have times | `specs/Lists.antt` |
//! | `cases/words.rt` | [`Needs`], [`Choice`], and the words of a case's table | `specs/CaseWords.antt` |
//! | `cases/earlier.rt` | the cases before one, and their names in order | `specs/NameSets.antt` |
//! | `cases/naming.rt` | the name of a case | `specs/Cases.antt` |
//! | `cases/head.rt` | start, needs, choices and length of a case | `specs/Cases.antt` |
//! | `cases/tester.rt` | what the tester does: its levels, and forced bit times | `specs/Cases.antt` |
//! | `cases/lists.rt` | the lists of a case | `specs/Lists.antt` |
//! | `cases/timed.rt` | offers, overload requests and forced bit times | `specs/Cases.antt` |
//! | `cases/case.rt` | [`Case`], [`read_case`], and [`read_cases`] for all cases of a list | `specs/Cases.antt` |
//! | `transcripts/naming.rt` | the case of a transcript | `specs/Transcripts.antt` |
//! | `transcripts/known.rt` | the cases that have no transcript yet | `specs/Untold.antt` |
//! | `transcripts/drove.rt` | the levels that were driven | `specs/Transcripts.antt` |
//! | `transcripts/lists.rt` | the lists of a transcript, with rising times | `specs/Elements.antt` |
//! | `transcripts/elements.rt` | events, counters and the end | `specs/Elements.antt` |
//! | `transcripts/told.rt` | [`Told`], [`read_transcript`], [`read_transcripts`] | `specs/Transcripts.antt` |
//! | `laws.rt` | [`one_case`], [`one_told`]: a table describes at most one case, or one transcript | `specs/Cases.antt`, `specs/Transcripts.antt` |
//! | `fault.rt` | [`KitFault`]: why a document is refused | |
//! | `field.rt` | [`KitField`]: the invalid field | |
//! | `field_words.rt` | what each field must be, in words: [`KitField::words`] | |
#![tactic(auto)]

mod cases;
mod elements;
mod fault;
mod field;
mod field_words;
mod laws;
mod strings;
mod tables;
mod transcripts;
mod words;

pub use cases::case::{Case, read_case, read_cases};
pub use cases::words::{Choice, Needs};
pub use elements::{Element, ElementFault, read_elements};
pub use fault::KitFault;
pub use field::{CaseField, KitField, TranscriptField};
pub use laws::{one_case, one_told};
pub use strings::read_strings;
pub use tables::{is_of_version_one, text_of};
pub use transcripts::told::{Told, read_transcript, read_transcripts};
pub use words::event_texts::{push_event, push_state};
pub use words::events::{read_event, read_state};
pub use words::levels::push_levels;
pub use words::names::{LONGEST_NAME, is_name};
pub use words::reading::read_levels;
