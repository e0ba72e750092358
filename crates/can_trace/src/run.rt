//! Runs a scenario.
ghost use Rattle.std.specs.Prelude.{◌≡◌, ◌≢◌, ◌+◌, ◌≤◌, ◌⊎◌, ◌↔◌, false, [], length, map, vec_len, IsTrue, IsErrOf, IfErr, IfOk, OnOk};
ghost use Rattle.std.specs.Io.KnownBytes.{Appends};
ghost use Rattle.can_bus.specs.OpenBus.{AreOver};
ghost use Rattle.can_bus.specs.Quiet.{span};
ghost use Rattle.can_trace.specs.OpenReport.{IsOpenScenario, all_frames, open_report, queues, scenario_starts};
ghost use Rattle.can_stream.specs.Outbox.{TakesFront};
ghost use Rattle.can_trace.specs.QuietReport.{IsQuietScenario, quiet_report};
ghost use Rattle.can_node.specs.Ports.{all_offered};
ghost use Rattle.can_trace.specs.Report.{ended_bus, made_port as made_port_of, recorded_levels, report, waiting_port};

use crate::offers::offers_in_time;
use crate::report::write_report;
use can_bus::Bus;
use can_frame::Level;
use can_node::{PackedNode, Port};
use can_scenario_text::{PortPlan, Scenario, TimedFrame};
use can_stream::{Sink, TraceFault};
use std::alloc::{AllocError, Global};

/// Runs the scenario and writes its report.
///
/// The ports are created with the overload frames that they ask for, and run on one bus. Without injected bit
/// errors, each frame is offered to its port before the bit time that the scenario states. Frames with the same
/// bit time are offered in the order of the ports, those of one port in the order of its queue. A frame after
/// the last bit time is not offered. With injected bit errors, all frames are offered before the run; in a
/// document with such errors they have time 0.
///
/// The report consists of these lines, each ended by 0x0a:
///
/// - `bits` with the number of bit times;
/// - the recorded levels as digits;
/// - for each port a line `port` with its number and its state, `active`, `passive` or `off`; after `tec` and
///   `rec` its error counters, after `missed` the number of entries that did not fit into its log;
/// - after it, for each entry of the port's log, two spaces, `sent` or `took`, and the frame's text.
///
/// The writer must not have failed before the call. All memory is allocated before the first byte is written:
/// after `Memory`, nothing has been written. After `Write`, a prefix of the report has been written, and the
/// writer is not called again. There is no other fault.
///
/// If an open scenario runs until its last frame is over, only its frames, their ports and times, and the
/// number of bit times determine the report. Each frame starts at the time of the schedule, and each port has
/// all frames in its log, in this order. In a quiet scenario, whose frames all have time 0, this is the order
/// of priority.
pub fn run_scenario<W: Sink>(
    alloc: Global,
    scenario: &Scenario,
    w: &mut W,
) -> Result<(), TraceFault>
    requires writer_unfailed { W.has_failed w.old ≡ false }
    ensures ok { OnOk result (Appends (W.contents w.old) (W.contents w.new) (report scenario.now)) }
    ensures write { IsErrOf result TraceFault.Write → TakesFront (W.contents w.old) (W.contents w.new) (report scenario.now) }
    ensures memory { IsErrOf result TraceFault.Memory → w.new ≡ w.old }
    ensures other { IfErr result (λ fault. (fault ≡ TraceFault.Write) ⊎ (fault ≡ TraceFault.Memory)) }
    ensures write_failed { IsErrOf result TraceFault.Write ↔ IsTrue (W.has_failed w.new) }
    ensures scheduled { OnOk result (IsOpenScenario scenario.now → AreOver (scenario_starts scenario.now) scenario.now.bits →
        Appends (W.contents w.old) (W.contents w.new) (open_report scenario.now.bits (scenario_starts scenario.now) (queues scenario.now))) }
    ensures quiet { OnOk result (IsQuietScenario scenario.now → span (all_frames (queues scenario.now)) ≤ scenario.now.bits →
        Appends (W.contents w.old) (W.contents w.new) (quiet_report scenario.now.bits (queues scenario.now))) }
{
    let Ok(ended) = run_to_end(alloc, scenario) else {
        return Err(TraceFault::Memory);
    };
    write_report(&ended.levels, &ended.ports, w)
}

/// The result of a scenario's run.
#[derive(Drop)]
pub struct Ended {
    /// The recorded levels.
    pub levels: Vec<Level>,
    /// The ports at the end.
    pub ports: Vec<PackedNode>,
}

/// Runs the scenario, and returns the recorded levels and the ports at the end. It fails only if an allocation
/// fails.
pub fn run_to_end(alloc: Global, scenario: &Scenario) -> Result<Ended, AllocError>
    ensures levels { IfOk result (λ ended. ended.levels.items ≡ recorded_levels scenario.now) }
    ensures ports { IfOk result (λ ended. map ⟦<PackedNode as Port>⟧.port ended.ports.items ≡ (ended_bus scenario.now).ports) }
    ensures scheduled { OnOk result (IsOpenScenario scenario.now → AreOver (scenario_starts scenario.now) scenario.now.bits →
        report scenario.now ≡ open_report scenario.now.bits (scenario_starts scenario.now) (queues scenario.now)) }
    ensures quiet { OnOk result (IsQuietScenario scenario.now → span (all_frames (queues scenario.now)) ≤ scenario.now.bits →
        report scenario.now ≡ quiet_report scenario.now.bits (queues scenario.now)) }
{
    if scenario.hits.is_empty() {
        play(alloc, scenario)
    } else {
        disturb(alloc, scenario)
    }
}

/// Runs a scenario without injected bit errors.
fn play(alloc: Global, scenario: &Scenario) -> Result<Ended, AllocError>
    requires { scenario.now.hits.items ≡ [] }
    ensures levels { IfOk result (λ ended. ended.levels.items ≡ recorded_levels scenario.now) }
    ensures ports { IfOk result (λ ended. map ⟦<PackedNode as Port>⟧.port ended.ports.items ≡ (ended_bus scenario.now).ports) }
    ensures scheduled { OnOk result (IsOpenScenario scenario.now → AreOver (scenario_starts scenario.now) scenario.now.bits →
        report scenario.now ≡ open_report scenario.now.bits (scenario_starts scenario.now) (queues scenario.now)) }
{
    let ports = made_ports(alloc, &scenario.ports)?;
    let offers = offers_in_time(alloc, &scenario.ports)?;
    let mut levels = unrecorded(alloc, scenario.bits)?;
    let Ok(mut bus) = Bus::new(ports) else {
        unreachable!();
    };
    // a queue has space for all frames that its port is offered
    let Ok(_refused) = bus.play(&offers, &mut levels) else {
        unreachable!();
    };
    Ok(Ended {
        levels,
        ports: bus.into_ports(),
    })
}

/// Runs a scenario with injected bit errors. All its frames are pending at the beginning.
fn disturb(alloc: Global, scenario: &Scenario) -> Result<Ended, AllocError>
    requires { scenario.now.hits.items ≢ [] }
    ensures levels { IfOk result (λ ended. ended.levels.items ≡ recorded_levels scenario.now) }
    ensures ports { IfOk result (λ ended. map ⟦<PackedNode as Port>⟧.port ended.ports.items ≡ (ended_bus scenario.now).ports) }
{
    let mut ports = made_ports(alloc, &scenario.ports)?;
    let mut levels = unrecorded(alloc, scenario.bits)?;
    offer_waiting(&mut ports, &scenario.ports);
    let Ok(mut bus) = Bus::new(ports) else {
        unreachable!();
    };
    let hits = scenario.hits.as_slice();
    let Ok(()) = bus.run(hits, &mut levels) else {
        unreachable!();
    };
    Ok(Ended {
        levels,
        ports: bus.into_ports(),
    })
}

/// A level for each of `bits` bit times.
fn unrecorded(alloc: Global, bits: u32) -> Result<Vec<Level>, AllocError>
    ensures { IfOk result (λ levels. vec_len levels ≡ bits) }
{
    Vec::from_elem(alloc, Level::Recessive, bits as usize)
}

/// The ports as they are created.
fn made_ports(alloc: Global, plans: &[PortPlan]) -> Result<Vec<PackedNode>, AllocError>
    ensures { IfOk result (λ ports. map ⟦<PackedNode as Port>⟧.port ports.items ≡ map made_port_of plans.now) }
{
    let mut ports = Vec::with_capacity(alloc, plans.len())?;
    for plan in plans {
        ports.push(made_port(alloc, plan)?)?;
    }
    Ok(ports)
}

/// Returns a port as it is created, with the plan's queue and log capacity, overload frames and bus
/// integration.
pub fn made_port(alloc: Global, plan: &PortPlan) -> Result<PackedNode, AllocError>
    ensures { IfOk result (λ node. ⟦<PackedNode as Port>⟧.port node ≡ made_port_of plan.now) }
{
    let queue_room = plan.queue.len();
    let mut node = if plan.joins {
        PackedNode::joining(alloc, queue_room, plan.log_room)?
    } else {
        PackedNode::new(alloc, queue_room, plan.log_room)?
    };
    node.hold(plan.overloads);
    Ok(node)
}

/// Offers each port all its frames.
fn offer_waiting(ports: &mut [PackedNode], plans: &[PortPlan])
    requires { map ⟦<PackedNode as Port>⟧.port ports.old ≡ map made_port_of plans.now }
    ensures { map ⟦<PackedNode as Port>⟧.port ports.new ≡ map waiting_port plans.now }
{
    for (number, port) in ports.iter_mut().enumerate() {
        offer_all(port, &plans[number].queue);
    }
}

/// Offers the frames, in their order, to a port that has space for them.
pub fn offer_all<P: Port>(port: &mut P, queue: &[TimedFrame])
    requires { length (P.port port.old).queue + length queue.now ≤ (P.port port.old).queue_room }
    ensures { P.port port.new ≡ all_offered (map (λ timed. timed.frame) queue.now) (P.port port.old) }
{
    for timed in queue {
        let Ok(()) = port.offer(timed.frame) else {
            unreachable!();
        };
    }
}
