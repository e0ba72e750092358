//! The texts of `canbit`: lines of frames, lines of vectors, and traces, over any reader and any writer.
//!
//! [`encode_lines`] reads frame texts, one a line, and writes the levels that the transmitter of each drives.
//! [`check_lines`] reads frame texts with levels, and writes for each whether the levels are right. [`decode_stream`]
//! reads levels of a bus, and writes a line for each frame and each fault in them.
//!
//! The contract of each states, for every way in which it can end:
//!
//! - what was written for what was read, if the reader and the writer state their bytes;
//! - for all readers and writers, which failure the result means.
//!
//! Each has two fixed buffers (for traces three), allocates no memory, and writes all complete output before each read.
//!
//! | File | What it has | Defined in |
//! |---|---|---|
//! | `lines/encode.rt` | [`encode_lines`] | `specs/Coded.antt`, `specs/Answered.antt` |
//! | `lines/check.rt` | [`check_lines`] | `specs/Checked.antt`, `specs/Answered.antt` |
//! | `lines/vector.rt` | one line of a frame text and levels, and its verdict | `specs/Checked.antt` |
//! | `lines/verdict.rt` | the output lines for verdicts and their total | `specs/Checked.antt` |
//! | `traces/decode.rt` | [`decode_stream`] | `specs/TraceText.antt`, `specs/Decoded.antt` |
//! | `traces/trace.rt` | a trace as it is decoded, level by level | `specs/Decoding.antt` |
//! | `traces/searching.rt` | the search for an idle row after a fault | `specs/Decoding.antt` |
//! | `traces/idle.rt` | rows of recessive levels, block by block | `specs/TraceText.antt` |
//! | `traces/skipped.rt` | spaces and line ends, block by block | `specs/TraceText.antt` |
//! | `traces/gathered.rt` | digits between spaces and line ends, gathered in one piece | `specs/Decoding.antt` |
//! | `traces/masks.rt` | the places of bytes in a block | `specs/Decoding.antt` |
//! | `traces/short_runs.rt` | when digits are gathered | |
//! | `traces/finding.rt` | a frame or fault in a trace, and its output line | `specs/Decoded.antt` |
//! | `laws.rt` | that lines of frames and of vectors have one output, that a trace contains one list of frames and faults, and that each input has one output | `specs/Coded.antt`, `specs/Checked.antt`, `specs/Decoded.antt` |
//!
//! Levels of a trace are decoded in the read buffer if their digits are adjacent. Digits that are not adjacent are
//! gathered first, so that they are also decoded in runs.
//!
//! The contracts of private functions are in `specs/Answering.antt` (`encode.rt`), `specs/Checking.antt` (`check.rt`)
//! and `specs/Decoding.antt` (`decode.rt`, `trace.rt`). `proofs/Lib.antt` lists the files of lemmas with their
//! contents.
#![tactic(auto)]

mod laws;
mod lines;
mod traces;

pub use laws::{one_answer, one_check, one_decoding};
pub use lines::{check_lines, encode_lines};
pub use traces::decode_stream;
