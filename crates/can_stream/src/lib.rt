//! Byte streams: reading and writing, line by line or whole, and the fault that stops a stream.
//!
//! A [`Source`] and a [`Sink`] record whether a call failed, so that a contract can state what a result
//! means. An [`Inbox`] reads in large pieces, and an [`Outbox`] writes in large pieces. The only way to read
//! is [`Inbox::flush_and_fill`], which first writes all buffered output to the sink. A [`LineReader`] reads
//! lines of any length through them, and allocates no memory. [`TraceFault`] is the reason why an output is
//! not complete.
//!
//! | File | What it has | Defined in |
//! |---|---|---|
//! | `source.rt` | [`Source`], from which bytes are read, and [`FromRead`], which wraps a `Read` | `specs/Told.antt`, `specs/Wrapped.antt` |
//! | `sink.rt` | [`Sink`], to which bytes are written, and [`ToWrite`], which wraps a `Write` | `specs/Told.antt`, `specs/Wrapped.antt` |
//! | `inbox.rt` | [`Inbox`], the bytes that were read and not yet used | `specs/Inbox.antt` |
//! | `outbox.rt` | [`Outbox`], the bytes that are buffered for a sink, and [`write_all`] | `specs/Outbox.antt` |
//! | `lines.rt` | [`LineReader`], the lines of a source, one after another | `specs/Lines.antt`, `specs/LineReader.antt` |
//! | `whole.rt` | [`read_whole`], all bytes of a source | |
//! | `line.rt` | a line that is built from parts | |
//! | `digits.rt` | [`write_digits`], levels as digits | can_frame's `specs/Levels.antt` |
//! | `pieces.rt` | readers and writers that work in pieces, for tests of streams | |
//! | `fault.rt` | [`TraceFault`], why an output is not complete | `specs/Faults.antt` |
//! | `field.rt` | [`Field`], what is invalid in a scenario | |
//!
//! `proofs/` has lemmas that other crates may use: how a text is divided into lines (`LineLemmas`), how one
//! is read (`Reading`), how a line (`LineParts`) and a text (`PutParts`) are built from parts, what is
//! written by a flush (`Flushing`), and that output is flushed before each read (`Turns`).
#![tactic(auto)]

mod digits;
mod fault;
mod field;
mod inbox;
pub mod line;
mod lines;
mod outbox;
pub mod pieces;
mod sink;
mod source;
mod whole;

pub use digits::write_digits;
pub use fault::TraceFault;
pub use field::{Field, HitList, PortField};
pub use inbox::Inbox;
pub use lines::LineReader;
pub use outbox::{OUTBOX_ROOM, Outbox, write_all};
pub use sink::{Sink, ToWrite};
pub use source::{FromRead, Source};
pub use whole::read_whole;
