//! The worst case of a message: which frames are offered when.
ghost use Rattle.std.specs.Prelude.{◌≡◌, ◌+◌, ◌*◌, ◌^◌, ◌<◌, ◌≤◌, List, ◌++◌, drop, length, take, IfErr, IfOk, IsErrOf, OnOk};
ghost use Rattle.can_plan_text.specs.Worst.{AreOfBlocker, AreSequences, IsOften, IsOnce, IsTooLong, IsWorstCase, IsWorstFault, blocking_of, most_long, offer_time as offer_time_of, offer_times as offer_times_of};
ghost use Rattle.document_values.specs.Values.{ArePaired};
ghost use Rattle.can_plan_text.specs.declared.case.Sequence.{Sequence as Offered};

use crate::case::{Sequence, WorstCase};
use crate::frames::{blocker_of, longest_frame};
use crate::period::busy_period;
use crate::plan::Planned;
use crate::worst_fault::WorstFault;
use can_longest::LongestWires;
use can_plan::arrivals;
use std::alloc::{AllocError, Global};

/// When the frames of a message and of the higher-priority ones are offered together. The frame that blocks them is
/// offered one bit time earlier, when the run begins.
const START: u64 = 1;

/// Returns the worst case of the message at this place. The messages are in the order of priority.
///
/// The message and the higher-priority ones are offered together. While the bus is busy with them, they are offered as
/// often as their periods and jitter allow. One of the longest frames of the lower-priority messages is offered one bit
/// time before all of these.
///
/// - `TooLong`: the bus is busy for longer than 999,999 bit times, or for ever.
/// - `Memory`: memory ran out.
pub fn worst_case(
    alloc: Global,
    wires: &LongestWires,
    planned: &[Planned],
    place: usize,
) -> Result<WorstCase, WorstFault>
    requires { place < length planned.now }
    ensures worst { IfOk result (IsWorstCase planned.now place) }
    ensures too_long { IsErrOf result WorstFault.TooLong → IsTooLong planned.now place }
    ensures other { IfErr result IsWorstFault }
{
    let (level, lower) = planned.split_at(place + 1);
    let blocker = blocker_of(lower);
    let Some(long) = busy_period(blocking(&blocker), level) else {
        return Err(WorstFault::TooLong);
    };
    let sequences = all_sequences(alloc, wires, level, &blocker, long)?;
    Ok(WorstCase { long, sequences })
}

/// Returns how much is left of the longest frame of this message one bit time after its start, or 0 without a message.
fn blocking(blocker: &Option<Planned>) -> u16
    ensures { result ≡ blocking_of blocker.now }
{
    match blocker {
        Some(planned) => planned.message.longest.saturating_sub(1),
        None => 0,
    }
}

/// Returns the frames of a priority level, and of the message that blocks it, for a busy period of `long` bit times.
fn all_sequences(
    alloc: Global,
    wires: &LongestWires,
    level: &[Planned],
    blocker: &Option<Planned>,
    long: u64,
) -> Result<Vec<Sequence>, AllocError>
    requires { long ≤ most_long }
    ensures { IfOk result (λ sequences. AreSequences long level.now blocker.now sequences.items) }
{
    let mut sequences = level_sequences(alloc, wires, level, long)?;
    push_blocker(alloc, wires, blocker, &mut sequences)?;
    Ok(sequences)
}

/// Returns the frames of a priority level.
fn level_sequences(
    alloc: Global,
    wires: &LongestWires,
    level: &[Planned],
    long: u64,
) -> Result<Vec<Sequence>, AllocError>
    requires { long ≤ most_long }
    ensures { IfOk result (λ sequences. ArePaired (IsOften long) level.now sequences.items) }
{
    let mut sequences = Vec::new(alloc);
    for planned in level {
        sequences.push(often(alloc, wires, planned, long)?)?;
    }
    Ok(sequences)
}

/// Appends the frame that blocks a priority level, if there is one.
fn push_blocker(
    alloc: Global,
    wires: &LongestWires,
    blocker: &Option<Planned>,
    sequences: &mut Vec<Sequence>,
) -> Result<(), AllocError>
    ensures { OnOk result ((once : List Offered) × AreOfBlocker blocker.now once × (sequences.new.items ≡ sequences.old.items ++ once)) }
{
    let Some(planned) = blocker else {
        return Ok(());
    };
    sequences.push(once(alloc, wires, planned)?)?;
    Ok(())
}

/// Returns a message's frame, offered as often as allowed.
fn often(
    alloc: Global,
    wires: &LongestWires,
    planned: &Planned,
    long: u64,
) -> Result<Sequence, AllocError>
    requires { long ≤ most_long }
    ensures { IfOk result (IsOften long planned.now) }
{
    let frame = longest_frame(wires, planned);
    let times = offer_times(alloc, planned, long)?;
    Ok(Sequence { frame, times })
}

/// Returns a message's frame, offered once, when the run begins.
fn once(alloc: Global, wires: &LongestWires, planned: &Planned) -> Result<Sequence, AllocError>
    ensures { IfOk result (IsOnce planned.now) }
{
    let frame = longest_frame(wires, planned);
    let mut times = Vec::new(alloc);
    times.push(START - 1)?;
    Ok(Sequence { frame, times })
}

/// Returns when those of a message's frames are offered that arrive within `long` bit times.
fn offer_times(alloc: Global, planned: &Planned, long: u64) -> Result<Vec<u64>, AllocError>
    requires { long ≤ most_long }
    ensures { IfOk result (λ times. times.items ≡ offer_times_of long planned.now.message) }
{
    let mut times = Vec::new(alloc);
    for number in 0..arrivals(&planned.message, long) {
        times.push(offer_time(planned, number))?;
    }
    Ok(times)
}

/// Returns when the frame with this number is offered: this many periods after the first, less the jitter of the first,
/// but not before the first.
fn offer_time(planned: &Planned, number: u64) -> u64
    requires { number * planned.now.message.period ≤ 2 ^ 34 }
    ensures { result ≡ offer_time_of planned.now.message number }
{
    let behind = number * u64::from(planned.message.period);
    START + behind.saturating_sub(u64::from(planned.message.jitter))
}
