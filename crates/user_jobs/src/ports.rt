//! Ports driven bit by bit, and what each port of a scenario does in each bit time.
ghost use Rattle.std.specs.Prelude.{◌<◌, ◌≤◌, ◌≡◌, length};

use crate::digest::Digest;
use crate::random::Random;
use crate::text::Text;
use crate::traffic::{frame_of, push_offer};
use can_fault::State;
use can_frame::Level;
use can_node::{PackedNode, Port};
use can_scenario_text::Scenario;
use can_terms::{Event, EventKind, PhaseKind};
use can_trace::{PortTime, told_times};
use std::alloc::{AllocError, Global};

/// The capacity of a port's queue, and of its log, in frames.
const ROOM: usize = 64;

/// Drives ports bit by bit, and computes what the ports of a scenario do in each bit time.
pub fn drive(
    alloc: Global,
    random: &mut Random,
    size: u32,
    digest: &mut Digest,
) -> Result<(), AllocError>
    requires { size ≤ 1000 }
{
    drive_ports(alloc, random, 2, 40_000 * size, digest)?;
    drive_ports(alloc, random, 3, 40_000 * size, digest)?;
    ask_times(alloc, random, 16, 600 * size, digest)
}

/// Drives this many ports on one wire, with a hit from time to time.
fn drive_ports(
    alloc: Global,
    random: &mut Random,
    count: u32,
    bits: u32,
    digest: &mut Digest,
) -> Result<(), AllocError> {
    let mut ports = Vec::new(alloc);
    for _ in 0..count {
        ports.push(PackedNode::new(alloc, ROOM, ROOM)?)?;
    }
    let mut until_offer = 0;
    let mut until_hit = 500;
    for time in 0..bits {
        if until_offer == 0 {
            until_offer = 1 + random.below(260);
            offer(&mut ports, random);
        }
        until_offer -= 1;
        let wired = wire_of(&ports);
        let is_hit = until_hit == 0;
        if is_hit {
            until_hit = 1 + random.below(3000);
        }
        until_hit -= 1;
        let seen = if is_hit { wired.opposite() } else { wired };
        for port in ports.iter_mut() {
            if let Some(event) = port.sample(seen) {
                digest.put(number_of(event));
                digest.put(u64::from(time));
            }
        }
    }
    for port in &ports {
        put_port(digest, port);
    }
    Ok(())
}

/// Returns the level that results from what the ports drive.
fn wire_of(ports: &[PackedNode]) -> Level {
    let mut wired = Level::Recessive;
    for port in ports {
        if !port.drive().is_recessive() {
            wired = Level::Dominant;
        }
    }
    wired
}

/// Offers a frame to one of the ports.
fn offer(ports: &mut [PackedNode], random: &mut Random) {
    let node = random.below(64);
    let place = node as usize % ports.len().max(1);
    if let Some(frame) = frame_of(random, node) {
        if place < ports.len() {
            let _ = ports[place].offer(frame);
        }
    }
}

/// Returns the number of an event.
fn number_of(event: Event) -> u64 {
    let kind = u64::from(event.kind().code());
    match event {
        Event::Sent(frame) | Event::Received(frame) => u64::from(frame.id().raw()) * 16 + kind,
        _ => kind,
    }
}

/// Puts the state of a port after the run into the digest.
fn put_port(digest: &mut Digest, port: &PackedNode) {
    let (transmit, receive) = port.counters();
    digest.put(u64::from(transmit));
    digest.put(u64::from(receive));
    digest.put(u64::from(port.missed()));
    digest.put(match port.state() {
        State::Active => 0,
        State::Passive => 1,
        State::BusOff => 2,
    });
    for entry in port.log() {
        digest.put(u64::from(entry.frame.id().raw()));
        digest.put(u64::from(entry.sent));
    }
}

/// Computes what each port of a scenario does in each bit time.
fn ask_times(
    alloc: Global,
    random: &mut Random,
    ports: u32,
    bits: u32,
    digest: &mut Digest,
) -> Result<(), AllocError> {
    let text = scenario(alloc, random, ports.clamp(1, 64), bits).finished()?;
    let Ok(scenario) = Scenario::from_text(alloc, text.as_bytes()) else {
        digest.put(1);
        return Ok(());
    };
    for node in 0..scenario.ports.len() {
        for time in &told_times(alloc, &scenario, node)? {
            put_time(digest, time);
        }
    }
    Ok(())
}

/// Returns a scenario of a busy bus.
fn scenario(alloc: Global, random: &mut Random, ports: u32, bits: u32) -> Text
    requires { ports ≤ 64 }
{
    let mut text = Text::new(alloc);
    text.push("version = 2\nbits = ");
    text.push_number(bits);
    text.push("\n");
    for node in 0..ports {
        text.push("\n[[port]]\nqueue = [\n");
        for _ in 0..bits / 2200 {
            push_offer(&mut text, random, node, bits);
        }
        text.push("]\n");
    }
    text
}

/// Puts what a port does in a bit time into the digest.
fn put_time(digest: &mut Digest, time: &PortTime) {
    let levels = u64::from(time.drove.code()) * 2 + u64::from(time.saw.code());
    let counts = u64::from(time.transmit) * 65536 + u64::from(time.receive);
    let event = u64::from(EventKind::code_of(time.event));
    // the digest numbers these two phases the other way round
    let phase = match time.phase {
        PhaseKind::Joining => 0,
        PhaseKind::Idle => 1,
        phase => u64::from(phase.code()),
    };
    digest.put(counts * 4096 + event * 256 + phase * 8 + levels * 2 + u64::from(time.sends));
}
