//! The frames of a trace.
ghost use Rattle.std.specs.Prelude.{IfOk};
ghost use Rattle.can_texts.specs.Decoded.{DecodesAll};

use can_stream::{FromRead, ToWrite, TraceFault};
use can_texts::decode_stream;
use std::alloc::Global;

/// The lines that report the frames and faults of a trace of `0` and `1`. A trace in a file, or one that is still
/// being written, is read the same way: any `Read` of std can be wrapped, and any `Write`.
pub fn found_in(alloc: Global, trace: &[u8]) -> Result<Vec<u8>, TraceFault>
    ensures { IfOk result (λ lines. DecodesAll trace.now lines.items) }
{
    let mut reader = FromRead::new(trace);
    let mut writer = ToWrite::new(Vec::new(alloc));
    decode_stream(&mut reader, &mut writer)?;
    Ok(writer.into_inner())
}
