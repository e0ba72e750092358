//! The scenario of a message's worst case, for the document of a network from a reader.
ghost use Rattle.std.specs.Prelude.{◌≡◌, ◌⊎◌, ◌↔◌, false, IfErr, IsErrOf, IsTrue, OnOk};
ghost use Rattle.can_stream.specs.Told.{Told};
ghost use Rattle.can_plan_text.specs.declared.field.PlanField.{PlanField as Wrong};
ghost use Rattle.can_program.specs.Written.{WritesBeginning, WritesNothing};
ghost use Rattle.can_plan_text.specs.Runs.{Draws, IsTimelineFault, RefusesNetwork, RefusesLength, RefusesName};

use crate::canplan_fault::CanplanFault;
use crate::timelines::timeline;
use can_stream::{Sink, Source, TraceFault, read_whole, write_all};
use std::alloc::Global;

/// Reads a network's document up to the reader's end, and writes the scenario of the worst case of the message with
/// this name. It writes nothing if the reader fails, the document, the name or the length is refused, or memory runs
/// out.
pub fn write_timeline<R: Source, W: Sink>(
    alloc: Global,
    message: &str,
    r: &mut R,
    w: &mut W,
) -> Result<(), CanplanFault>
    requires reader_unfailed { R.has_failed r.old ≡ false }
    requires reader_unended { R.has_ended r.old ≡ false }
    requires writer_unfailed { W.has_failed w.old ≡ false }

    // What was written for what was read.
    ensures ok { OnOk result (Told R.remaining r.old r.new W.contents w.old w.new (Draws message.now)) }
    ensures field { (wrong : Wrong) → IsErrOf result (CanplanFault.Field wrong) →
        Told R.remaining r.old r.new W.contents w.old w.new (RefusesNetwork wrong) }
    ensures unknown { IsErrOf result CanplanFault.MessageUnknown → Told R.remaining r.old r.new W.contents w.old w.new (RefusesName message.now) }
    ensures too_long { IsErrOf result CanplanFault.TimelineTooLong → Told R.remaining r.old r.new W.contents w.old w.new (RefusesLength message.now) }
    ensures read { IsErrOf result (CanplanFault.Stream TraceFault.Read) → Told R.remaining r.old r.new W.contents w.old w.new WritesNothing }
    ensures write { IsErrOf result (CanplanFault.Stream TraceFault.Write) → Told R.remaining r.old r.new W.contents w.old w.new (WritesBeginning (Draws message.now)) }
    ensures memory { IsErrOf result (CanplanFault.Stream TraceFault.Memory) → Told R.remaining r.old r.new W.contents w.old w.new WritesNothing }
    ensures other { IfErr result (λ fault. IsTimelineFault fault ⊎ (fault ≡ CanplanFault.Stream TraceFault.Read) ⊎ (fault ≡ CanplanFault.Stream TraceFault.Write)) }

    // Whether the reader and the writer failed.
    ensures read_failed { IsErrOf result (CanplanFault.Stream TraceFault.Read) ↔ IsTrue (R.has_failed r.new) }
    ensures write_failed { IsErrOf result (CanplanFault.Stream TraceFault.Write) ↔ IsTrue (W.has_failed w.new) }
{
    let text = read_whole(alloc, r)?;
    let scenario = timeline(alloc, text.as_slice(), message.as_bytes())?;
    write_all(w, scenario.as_slice())?;
    Ok(())
}
