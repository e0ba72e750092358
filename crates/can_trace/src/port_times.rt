//! The state and actions of a port in each bit time of a run.
ghost use Rattle.std.specs.Prelude.{ℕ, ◌≡◌, ◌+◌, ◌<◌, if◌then◌else◌, List, [], ◌∷◌, ◌++◌, length, get_or, IfOk};
ghost use Rattle.can_bus.specs.Offers.{AreOffered};
ghost use Rattle.can_bus.specs.Run.{hits_view};
ghost use Rattle.can_bus.specs.Walks.{IsReached};
ghost use Rattle.can_frame.specs.Levels.{opposite};
ghost use Rattle.can_node.specs.Ports.{port_step};
ghost use Rattle.can_trace.specs.Report.{recorded_levels};
ghost use Rattle.can_trace.specs.declared.port_times.PortTime.{PortTime as Told};
ghost use Rattle.can_trace.specs.PortTimes.{AreAllTold, AreSeen, AreTold, first_port, offers_meanwhile, own_made, port_time, told_from};

use crate::offers::offers_in_time;
use crate::run::{made_port, offer_all, run_to_end};
use can_bus::{Hit, Offer};
use can_frame::Level;
use can_node::{PackedNode, Port};
use can_scenario_text::{PortPlan, Scenario};
use can_terms::{Event, EventKind, PhaseKind};
use std::alloc::{AllocError, Global};

/// A port at the beginning of a bit time, and what it does in it.
#[derive(Clone, Copy, Debug, PartialEq, Eq)]
pub struct PortTime {
    pub phase: PhaseKind,
    /// Whether it is the transmitter of the frame on the bus.
    pub sends: bool,
    /// The transmit error counter.
    pub transmit: u16,
    /// The receive error counter.
    pub receive: u16,
    /// The level that it drives.
    pub drove: Level,
    /// The level that it samples: the recorded one, or its opposite after an injected bit error for this port alone.
    pub saw: Level,
    /// The event of the bit time, if there is one.
    pub event: Option<EventKind>,
}

/// Returns the state and actions of the port with this number in each bit time of the scenario's run. It fails only if
/// an allocation fails.
pub fn told_times(
    alloc: Global,
    scenario: &Scenario,
    node: usize,
) -> Result<Vec<PortTime>, AllocError>
    requires { node < length scenario.now.ports.items }
    ensures { IfOk result (λ times. AreTold scenario.now node times.items) }
{
    let ended = run_to_end(alloc, scenario)?;
    let offers = meanwhile(alloc, scenario)?;
    let mut times = Vec::with_capacity(alloc, ended.levels.len())?;
    tell_port(alloc, scenario, node, &ended.levels, &offers, &mut times)?;
    Ok(times)
}

/// Returns the state and actions of all ports in each bit time of the scenario's run, computed in one run of the bus.
/// Bit time t of port n is at index n times the number of bit times, plus t. It fails only if an allocation fails.
pub fn all_told_times(alloc: Global, scenario: &Scenario) -> Result<Vec<PortTime>, AllocError>
    ensures { IfOk result (λ times. AreAllTold scenario.now times.items) }
{
    let ended = run_to_end(alloc, scenario)?;
    let offers = meanwhile(alloc, scenario)?;
    let mut times = Vec::new(alloc);
    for node in 0..scenario.ports.len() {
        tell_port(alloc, scenario, node, &ended.levels, &offers, &mut times)?;
    }
    Ok(times)
}

/// Appends the bit times of the port with this number. `levels` were recorded, and `offers` made, in the scenario's
/// run.
fn tell_port(
    alloc: Global,
    scenario: &Scenario,
    node: usize,
    levels: &[Level],
    offers: &[Offer],
    times: &mut Vec<PortTime>,
) -> Result<(), AllocError>
    requires port { node < length scenario.now.ports.items }
    requires levels { levels.now ≡ recorded_levels scenario.now }
    requires offers { offers.now ≡ offers_meanwhile scenario.now.hits.items scenario.now }
    ensures { IfOk result (λ done. (told : List Told) × AreTold scenario.now node told × (times.new.items ≡ times.old.items ++ told)) }
{
    let seen = seen_levels(alloc, &scenario.hits, node, levels)?;
    let port = beginning(alloc, &scenario.hits, &scenario.ports[node])?;
    replay(port, node, offers, &seen, times)
}

/// The port of this plan at the beginning of a run with these injected bit errors.
fn beginning(alloc: Global, hits: &[Hit], plan: &PortPlan) -> Result<PackedNode, AllocError>
    ensures { IfOk result (λ port. ⟦<PackedNode as Port>⟧.port port ≡ first_port hits.now plan.now) }
{
    let mut port = made_port(alloc, plan)?;
    if !hits.is_empty() {
        offer_all(&mut port, &plan.queue);
    }
    Ok(port)
}

/// The offers that are made during the scenario's run.
fn meanwhile(alloc: Global, scenario: &Scenario) -> Result<Vec<Offer>, AllocError>
    ensures { IfOk result (λ offers. offers.items ≡ offers_meanwhile scenario.now.hits.items scenario.now) }
{
    if scenario.hits.is_empty() {
        offers_in_time(alloc, &scenario.ports)
    } else {
        Ok(Vec::new(alloc))
    }
}

/// The levels that the port with this number sees, if these are recorded.
fn seen_levels(
    alloc: Global,
    hits: &[Hit],
    node: usize,
    levels: &[Level],
) -> Result<Vec<Level>, AllocError>
    ensures each { IfOk result (λ seen. length seen.items ≡ length levels.now) }
    ensures seen { IfOk result (λ seen. AreSeen hits.now node levels.now seen.items) }
{
    let mut seen = copied(alloc, levels)?;
    for hit in hits {
        see_hit(*hit, node, levels, &mut seen);
    }
    Ok(seen)
}

/// A copy of these levels.
fn copied(alloc: Global, levels: &[Level]) -> Result<Vec<Level>, AllocError>
    ensures { IfOk result (λ copy. copy.items ≡ levels.now) }
{
    let mut copy = Vec::with_capacity(alloc, levels.len())?;
    for level in levels {
        copy.push(*level)?;
    }
    Ok(copy)
}

/// If the hit is on this port's view, makes the level at its time the opposite of the recorded one.
fn see_hit(hit: Hit, node: usize, levels: &[Level], seen: &mut [Level])
    requires { length seen.old ≡ length levels.now }
    ensures each { length seen.new ≡ length levels.now }
    ensures seen { (t : ℕ) (d : Level) → t < length levels.now → get_or seen.new t d ≡ (if hits_view t node hit then opposite (get_or levels.now t d) else get_or seen.old t d) }
{
    if let Hit::View { time, node: port } = hit
        && port == node
        && time < levels.len() as u64
    {
        seen[time as usize] = levels[time as usize].opposite();
    }
}

/// Appends the bit times of a port that sees these levels, one a bit time, and gets those of the offers that name it.
fn replay(
    mut port: PackedNode,
    node: usize,
    offers: &[Offer],
    seen: &[Level],
    times: &mut Vec<PortTime>,
) -> Result<(), AllocError>
    requires { (ports : ℕ) × AreOffered ports offers.now }
    ensures { IfOk result (λ done. times.new.items ≡ times.old.items ++ told_from node offers.now 0 (⟦<PackedNode as Port>⟧.port port) seen.now) }
{
    let mut place = 0;
    for time in 0..seen.len() {
        offer_due(&mut port, node, offers, time as u64, &mut place);
        times.push(tell(&mut port, seen[time]))?;
    }
    Ok(())
}

/// Makes the offers of this time that name the port, in their order. Those before `place` are earlier.
fn offer_due<P: Port>(port: &mut P, node: usize, offers: &[Offer], time: u64, place: &mut usize)
    requires offered { (ports : ℕ) × AreOffered ports offers.now }
    requires reached { IsReached offers.now place.old time }
    ensures port { P.port port.new ≡ own_made node offers.now time (P.port port.old) }
    ensures reached { IsReached offers.now place.new (time + 1) }
{
    while *place < offers.len() && offers[*place].time == time {
        offer_own(port, node, offers[*place]);
        *place += 1;
    }
}

/// Makes an offer to the port, if it names it.
fn offer_own<P: Port>(port: &mut P, node: usize, offer: Offer)
    ensures { P.port port.new ≡ own_made node (offer ∷ []) offer.time (P.port port.old) }
{
    if offer.node == node {
        let _ = port.offer(offer.frame);
    }
}

/// Gives the port a level to sample, and returns what it does.
fn tell(port: &mut PackedNode, seen: Level) -> PortTime
    ensures told { result ≡ port_time (⟦<PackedNode as Port>⟧.port port.old) seen }
    ensures port { ⟦<PackedNode as Port>⟧.port port.new ≡ port_step (⟦<PackedNode as Port>⟧.port port.old) seen }
{
    let (transmit, receive) = port.counters();
    let phase = port.access().phase().kind();
    let sends = port.access().role().is_sender();
    let drove = port.drive();
    let event = Event::kind_of(&port.sample(seen));
    PortTime {
        phase,
        sends,
        transmit,
        receive,
        drove,
        saw: seen,
        event,
    }
}
