//! Traces, with an output line for each frame and each fault in them.
mod decode;
mod finding;
mod gathered;
mod idle;
mod masks;
mod searching;
mod short_runs;
mod skipped;
mod trace;

pub use decode::decode_stream;
