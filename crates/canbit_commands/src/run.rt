//! Running the scenario from a reader.
ghost use Rattle.std.specs.Prelude.{◌≡◌, false};
ghost use Rattle.canbit_commands.specs.Ends.{RunEnds};

use can_stream::{Sink, Source, TraceFault, read_whole};
use can_trace::{Scenario, run_scenario};
use std::alloc::Global;

/// Reads a scenario up to the reader's end, runs it, and writes its report. It writes nothing if the
/// reader fails, the scenario is refused, or memory runs out.
pub fn run<R: Source, W: Sink>(alloc: Global, r: &mut R, w: &mut W) -> Result<(), TraceFault>
    requires reader_unfailed { R.has_failed r.old ≡ false }
    requires reader_unended { R.has_ended r.old ≡ false }
    requires writer_unfailed { W.has_failed w.old ≡ false }
    ensures { RunEnds R.remaining r.old r.new W.contents w.old w.new (R.has_ended r.new) (R.has_failed r.new) (W.has_failed w.new) result }
{
    let text = read_whole(alloc, r)?;
    let scenario = Scenario::from_text(alloc, text.as_slice())?;
    run_scenario(alloc, &scenario, w)
}
