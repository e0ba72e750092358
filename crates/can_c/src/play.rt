//! A bus of ports that the caller keeps.
ghost use Rattle.std.specs.Prelude.{◌≡◌, ◌≢◌, ◌≤◌, ◌⊎◌, ◌↔◌, None, Some, IfErr, IfOk, IsOk, IsSome, OnErr, OnOk, false, length, map, not};
ghost use Rattle.can_frame.specs.Levels.{levels_of_codes};
ghost use Rattle.can_terms.specs.Hits.{AreTaken};
ghost use Rattle.can_bus.specs.Network.{OnNetworkCall};
ghost use Rattle.can_bus.specs.Offers.{call_after, call_level, call_refused, AreOffered};
ghost use Rattle.can_bus.specs.Run.{AreLevelsOf, new_bus};
ghost use Rattle.can_bus.specs.declared.fault.BusFault.{BusFault as Fault};
ghost use Rattle.can_c.specs.declared.status.Status.{Status as Why};
ghost use Rattle.can_c.specs.Play.{AreCodesOf, IsNetworkRun, IsPlayFault, IsPlayRefusal, IsPlayCall, bus_held, held_in, lacks_port, ports_held, ports_refusal};
ghost use Rattle.can_c.specs.PlainInputs.{hits_of_plain, offers_of_plain};
ghost use Rattle.can_c.specs.Statuses.{bus_status, done, status_code};

use crate::handle::Handle;
use crate::inputs::{PlainHit, PlainOffer, read_hits, read_offers};
use crate::status::Status;
use can_bus::{Bus, BusFault, Hit, Offer};
use can_frame::Level;
use can_node::{PackedNode, Port};
use can_wire::write_codes;
use std::alloc::{AllocError, Global};

/// The most ports that a bus may have.
const MOST_PORTS: usize = 64;

/// Runs a bus of the ports of these handles, one bit time for each element of `levels`. Frames are queued and bit
/// errors injected as by [`Bus::play_disturbed`]. It writes the level of the bus in each bit time, and how many offers
/// a full queue refused. Each port continues from its present state, and its handle holds it afterwards. The bus counts
/// as recessive for eleven bit times before the call. If anything is refused, or there is no memory, nothing has run.
/// The memory that the call allocates is freed before it returns.
#[tactic(auto, using(crate::proofs::StatusLemmas::done_only, crate::proofs::StatusLemmas::not_done))]
#[unsafe(no_mangle)]
pub extern "C" fn can_c_play(
    alloc: Global,
    handles: &mut [Handle],
    offers: &[PlainOffer],
    hits: &[PlainHit],
    levels: &mut [u8],
    refused: &mut usize,
) -> u8
    ensures why { result ≢ done → (why : Why) × (IsPlayRefusal (held_in handles.old) offers.now hits.now why × (result ≡ status_code why)) }
    ensures taken { result ≡ done → IsPlayCall (held_in handles.old) offers.now hits.now }
    ensures ports { result ≡ done → held_in handles.new ≡ map Some (call_after (offers_of_plain offers.now) (hits_of_plain hits.now) (length levels.new) (bus_held (held_in handles.old))).bus.ports }
    ensures levels { result ≡ done → AreCodesOf (λ t. call_level (offers_of_plain offers.now) (hits_of_plain hits.now) t (bus_held (held_in handles.old))) levels.new }
    ensures count { result ≡ done → refused.new ≡ call_refused (offers_of_plain offers.now) (hits_of_plain hits.now) (length levels.new) (bus_held (held_in handles.old)) }
    ensures network { result ≡ done → OnNetworkCall (offers_of_plain offers.now) (hits_of_plain hits.now) (bus_held (held_in handles.old)) (λ course.
        IsNetworkRun (offers_of_plain offers.now) course (levels_of_codes levels.new) (ports_held (held_in handles.old)) (ports_held (held_in handles.new))) }
    ensures unchanged { result ≢ done → held_in handles.new ≡ held_in handles.old }
    ensures unwritten { result ≢ done → (levels.new ≡ levels.old) × (refused.new ≡ refused.old) }
{
    match play_ports(alloc, handles, offers, hits, levels) {
        Ok(count) => {
            *refused = count;
            Status::Done.code()
        }
        Err(why) => why.code(),
    }
}

/// Runs a bus of the ports of these handles, writes its levels, and returns how many offers a full queue refused.
fn play_ports(
    alloc: Global,
    handles: &mut [Handle],
    offers: &[PlainOffer],
    hits: &[PlainHit],
    levels: &mut [u8],
) -> Result<usize, Status>
    ensures why { IfErr result (λ why. IsPlayRefusal (held_in handles.old) offers.now hits.now why) }
    ensures taken { OnOk result (IsPlayCall (held_in handles.old) offers.now hits.now) }
    ensures ports { OnOk result (held_in handles.new ≡ map Some (call_after (offers_of_plain offers.now) (hits_of_plain hits.now) (length levels.new) (bus_held (held_in handles.old))).bus.ports) }
    ensures levels { OnOk result (AreCodesOf (λ t. call_level (offers_of_plain offers.now) (hits_of_plain hits.now) t (bus_held (held_in handles.old))) levels.new) }
    ensures count { IfOk result (λ count. count ≡ call_refused (offers_of_plain offers.now) (hits_of_plain hits.now) (length levels.new) (bus_held (held_in handles.old))) }
    ensures network { OnOk result (OnNetworkCall (offers_of_plain offers.now) (hits_of_plain hits.now) (bus_held (held_in handles.old)) (λ course.
        IsNetworkRun (offers_of_plain offers.now) course (levels_of_codes levels.new) (ports_held (held_in handles.old)) (ports_held (held_in handles.new)))) }
    ensures unchanged { OnErr result (held_in handles.new ≡ held_in handles.old) }
    ensures unwritten { OnErr result (levels.new ≡ levels.old) }
{
    check_ports(alloc, handles)?;
    let offers = read_offers(alloc, offers)?;
    let hits = read_hits(alloc, hits)?;
    let mut recorded = Vec::from_elem(alloc, Level::Recessive, levels.len())?;
    let count = run(alloc, handles, &offers, &hits, &mut recorded)?;
    write_codes(&recorded, levels);
    Ok(count)
}

/// Checks that there are 1 to 64 handles, each with a port.
fn check_ports(alloc: Global, handles: &mut [Handle]) -> Result<(), Status>
    ensures why { IfErr result (λ why. ports_refusal (held_in handles.old) ≡ Some why) }
    ensures fits { OnOk result (ports_refusal (held_in handles.old) ≡ None) }
    ensures unchanged { held_in handles.new ≡ held_in handles.old }
{
    if handles.is_empty() {
        return Err(Status::BadBus);
    }
    if handles.len() > MOST_PORTS {
        return Err(Status::BadBus);
    }
    if !all_hold(alloc, handles) {
        return Err(Status::NoPort);
    }
    Ok(())
}

/// Whether each handle holds a port.
fn all_hold(alloc: Global, handles: &mut [Handle]) -> bool
    ensures answer { result ≡ not (lacks_port (held_in handles.old)) }
    ensures unchanged { held_in handles.new ≡ held_in handles.old }
{
    for handle in handles.iter_mut() {
        if !handle.holds(alloc) {
            return false;
        }
    }
    true
}

/// Runs the ports of these handles on a bus, and records its levels. They are exchanged for ports without capacity
/// before the run, and back after it.
fn run(
    alloc: Global,
    handles: &mut [Handle],
    offers: &[Offer],
    hits: &[Hit],
    recorded: &mut [Level],
) -> Result<usize, Status>
    requires { ports_refusal (held_in handles.old) ≡ None }
    ensures why { IfErr result (λ why. (why ≡ Status.NoMemory) ⊎ ((fault : Fault) × (IsPlayFault (length handles.old) offers.now hits.now fault × (why ≡ bus_status fault)))) }
    ensures offered { OnOk result (AreOffered (length handles.old) offers.now) }
    ensures taken { OnOk result (AreTaken (length handles.old) hits.now) }
    ensures ports { OnOk result (held_in handles.new ≡ map Some (call_after offers.now hits.now (length recorded.new) (bus_held (held_in handles.old))).bus.ports) }
    ensures levels { OnOk result (AreLevelsOf (λ t. call_level offers.now hits.now t (bus_held (held_in handles.old))) recorded.new) }
    ensures count { IfOk result (λ count. count ≡ call_refused offers.now hits.now (length recorded.new) (bus_held (held_in handles.old))) }
    ensures network { OnOk result (OnNetworkCall offers.now hits.now (bus_held (held_in handles.old)) (λ course.
        IsNetworkRun offers.now course recorded.new (ports_held (held_in handles.old)) (ports_held (held_in handles.new)))) }
    ensures unchanged { OnErr result (held_in handles.new ≡ held_in handles.old) }
{
    let mut nodes = empty_nodes(alloc, handles.len())?;
    exchange_all(alloc, handles, &mut nodes);
    let (mut back, answer) = run_nodes(nodes, offers, hits, recorded);
    exchange_all(alloc, handles, &mut back);
    match answer {
        Ok(count) => Ok(count),
        Err(fault) => Err(Status::of_bus(fault)),
    }
}

/// `count` ports without capacity.
fn empty_nodes(alloc: Global, count: usize) -> Result<Vec<PackedNode>, AllocError>
    ensures { IfOk result (λ nodes. length nodes.items ≡ count) }
{
    let mut nodes = Vec::with_capacity(alloc, count)?;
    for _ in 0..count {
        nodes.push(PackedNode::new(alloc, 0, 0)?)?;
    }
    Ok(nodes)
}

/// Exchanges the ports of these handles and these nodes.
fn exchange_all(alloc: Global, handles: &mut [Handle], nodes: &mut [PackedNode])
    requires each { length handles.old ≡ length nodes.old }
    requires held { lacks_port (held_in handles.old) ≡ false }
    ensures handles { held_in handles.new ≡ map Some (map ⟦<PackedNode as Port>⟧.port nodes.old) }
    ensures nodes { held_in handles.old ≡ map Some (map ⟦<PackedNode as Port>⟧.port nodes.new) }
{
    for (place, node) in nodes.iter_mut().enumerate() {
        exchange(alloc, &mut handles[place], node);
    }
}

/// Exchanges the port of a handle and a node.
fn exchange(alloc: Global, handle: &mut Handle, node: &mut PackedNode)
    requires { IsSome handle.old.held }
    ensures handle { handle.new.held ≡ Some (⟦<PackedNode as Port>⟧.port node.old) }
    ensures node { handle.old.held ≡ Some (⟦<PackedNode as Port>⟧.port node.new) }
{
    let Some(mut port) = handle.take(alloc) else {
        unreachable!();
    };
    port.swap(node);
    handle.put(alloc, port);
}

/// Runs these ports on a bus, records its levels, and returns the ports with the result of the run.
fn run_nodes(
    nodes: Vec<PackedNode>,
    offers: &[Offer],
    hits: &[Hit],
    recorded: &mut [Level],
) -> (Vec<PackedNode>, Result<usize, BusFault>)
    requires some { 1 ≤ length nodes.items }
    requires few { length nodes.items ≤ 64 }
    ensures each { length result.0.items ≡ length nodes.items }
    ensures taken { IsOk result.1 ↔ (AreOffered (length nodes.items) offers.now × AreTaken (length nodes.items) hits.now) }
    ensures fault { IfErr result.1 (λ fault. IsPlayFault (length nodes.items) offers.now hits.now fault) }
    ensures ports { OnOk result.1 (map ⟦<PackedNode as Port>⟧.port result.0.items ≡ (call_after offers.now hits.now (length recorded.new) (new_bus (map ⟦<PackedNode as Port>⟧.port nodes.items))).bus.ports) }
    ensures levels { OnOk result.1 (AreLevelsOf (λ t. call_level offers.now hits.now t (new_bus (map ⟦<PackedNode as Port>⟧.port nodes.items))) recorded.new) }
    ensures count { IfOk result.1 (λ count. count ≡ call_refused offers.now hits.now (length recorded.new) (new_bus (map ⟦<PackedNode as Port>⟧.port nodes.items))) }
    ensures network { OnNetworkCall offers.now hits.now (new_bus (map ⟦<PackedNode as Port>⟧.port nodes.items)) (λ course. IsNetworkRun offers.now course recorded.new (map ⟦<PackedNode as Port>⟧.port nodes.items) (map ⟦<PackedNode as Port>⟧.port result.0.items)) }
    ensures unchanged { OnErr result.1 (map ⟦<PackedNode as Port>⟧.port result.0.items ≡ map ⟦<PackedNode as Port>⟧.port nodes.items) }
{
    let Ok(mut bus) = Bus::new(nodes) else {
        unreachable!();
    };
    let answer = bus.play_disturbed(offers, hits, recorded);
    (bus.into_ports(), answer)
}
