//! The calls of the page in page/ and of the C library to the proved code, with bytes and numbers as arguments and
//! results. Only those that run a scenario or analyse a network allocate memory.
//!
//! Each export does what one call of can_frame, can_code, can_fields, can_texts, can_trace, can_port_times or
//! can_plan_text does, and states it in the same definitions. It returns an [`Answer`] as a number.
//!
//! | File | What it has | Defined in |
//! |---|---|---|
//! | `answer.rt` | [`Answer`], the status that a call returns | `specs/Answers.antt` |
//! | `codes.rt` | the numbers of fields | `specs/Codes.antt` |
//! | `frames.rt` | [`page_frame_text`], the text of a frame with these parts, and [`page_encode`], the levels of the frame with this text | `specs/Calls.antt` |
//! | `levels.rt` | `Levels`, levels as numbers, read as trace text | `specs/Texts.antt` |
//! | `lines.rt` | [`Lines`], the caller's buffer for lines | `specs/Lines.antt` |
//! | `plain.rt` | [`PlainTime`], what a port does in a bit time, and [`WrongField`], what is wrong in a scenario or a network, as plain fields | `specs/Plain.antt` |
//! | `plans.rt` | [`page_plan`], the worst-case response times of the messages of a network | `specs/Calls.antt` |
//! | `scenarios.rt` | [`page_run`], the report of a scenario, [`page_port_times`], what one of its ports does in each bit time, and [`page_all_port_times`], what all of them do | `specs/Calls.antt` |
//! | `text.rt` | `Text`, bytes to read; a read never fails | `specs/Texts.antt` |
//! | `traces.rt` | [`page_decode`] and [`page_decode_levels`], the frames and faults in a trace, given as text or as levels, and [`page_levels`], the levels of such a text | `specs/Calls.antt` |
//! | `wires.rt` | [`page_marks`], the field of each level of a frame | `specs/Calls.antt` |
//! | `worst.rt` | [`page_worst_case`], the worst case of a message of a network, as a scenario | `specs/Calls.antt` |
#![tactic(auto)]

mod answer;
mod codes;
mod frames;
mod levels;
mod lines;
mod plain;
mod plans;
mod scenarios;
mod text;
mod traces;
mod wires;
mod worst;

pub use answer::Answer;
pub use frames::{page_encode, page_frame_text};
pub use lines::{Lines, ROOM};
pub use plain::{PlainTime, WrongField};
pub use plans::page_plan;
pub use scenarios::{page_all_port_times, page_port_times, page_run};
pub use traces::{page_decode, page_decode_levels, page_levels};
pub use wires::page_marks;
pub use worst::page_worst_case;
