//! All bytes of a source, in memory.
ghost use Rattle.std.specs.Prelude.{◌≡◌, ◌⊎◌, ◌↔◌, ℕ, false, List, IsTrue, IsFalse, IsErrOf, IfErr, IfOk, OnErr, OnOk};
ghost use Rattle.std.specs.Io.KnownBytes.{Consumes, IsAtEnd};

use crate::fault::TraceFault;
use crate::source::Source;
use std::alloc::Global;

/// The maximum number of bytes that one read returns.
const PIECE: usize = 8192;

/// Reads all bytes of the source to its end, and returns them.
///
/// The result is `Ok` only if the source ended in this call. Errors:
///
/// - `Read`: the source failed. The failed read is not repeated.
/// - `Memory`: no memory is left for the bytes that were read last. No more is read then.
pub fn read_whole<R: Source>(alloc: Global, r: &mut R) -> Result<Vec<u8>, TraceFault>
    requires unfailed { R.has_failed r.old ≡ false }
    requires unended { R.has_ended r.old ≡ false }

    // What was read.
    ensures whole { IfOk result (λ bytes. Consumes (R.remaining r.old) (R.remaining r.new) bytes.items) }
    ensures part { OnErr result ((bytes : List ℕ) × Consumes (R.remaining r.old) (R.remaining r.new) bytes) }
    ensures other { IfErr result (λ fault. (fault ≡ TraceFault.Read) ⊎ (fault ≡ TraceFault.Memory)) }

    // The state of the source.
    ensures ended { OnOk result (IsTrue (R.has_ended r.new)) }
    ensures at_end { OnOk result (IsAtEnd (R.remaining r.new)) }
    ensures unended { OnErr result (IsFalse (R.has_ended r.new)) }
    ensures read_failed { IsErrOf result TraceFault.Read ↔ IsTrue (R.has_failed r.new) }
{
    let mut whole = Vec::new(alloc);
    let mut piece = [0; PIECE];
    loop {
        match r.read(&mut piece) {
            Ok(0) => return Ok(whole),
            Ok(count) => whole
                .extend_from_slice(&piece[..count])
                .map_err(|_| TraceFault::Memory)?,
            Err(_) => return Err(TraceFault::Read),
        }
    }
}
