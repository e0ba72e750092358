//! Five small callers of the libraries, to copy from. Their contracts use the definitions of the crates that they
//! call, and are proved from those crates' contracts alone. (docs/CALLING.md)
//!
//!     $ callers < examples/trace.txt
//!     frame: 53 bit times
//!     ..
//!
//! | File | What it does | Calls |
//! |---|---|---|
//! | `frame.rt` | returns how long a frame keeps the bus | can_frame, can_wire |
//! | `stream.rt` | finds the frames of a trace | can_stream, can_texts |
//! | `port.rt` | runs two ports on a bus, bit time by bit time | can_node |
//! | `bus.rt` | runs a bus with offers and hits | can_bus |
//! | `plan.rt` | returns the worst-case response time of a message | can_longest, can_plan |
#![tactic(auto)]

mod bus;
mod frame;
mod plan;
mod port;
mod stream;

use bus::played;
use can_bus::{Hit, Offer};
use can_frame::{Frame, Id, Level};
use can_longest::LongestWires;
use can_node::{PackedNode, Port};
use can_plan::HitRate;
use can_stream::{FromRead, read_whole};
use frame::bit_times;
use plan::{latest_end, message};
use port::received_within;
use std::io;
use std::io::Write;
use stream::found_in;

fn main(rt: HostRuntime) -> io::Result<()> {
    let Ok(frame) = Frame::from_text(b"S 000 D 0") else {
        return Ok(());
    };
    println!(rt; "frame: {} bit times", bit_times(&frame))?;
    find_frames(&rt)?;
    share_wire(&rt, frame)?;
    run_bus(&rt, frame)?;
    plan_network(&rt)
}

/// Prints the frames of the trace on standard input.
fn find_frames(rt: &HostRuntime) -> io::Result<()> {
    let alloc = rt.alloc();
    let trace = read_whole(alloc, &mut FromRead::new(rt.stdin()));
    match trace.and_then(|trace| found_in(alloc, &trace)) {
        Ok(lines) => rt.stdout().write_all(&lines),
        Err(fault) => println!(rt; "stream: {fault}"),
    }
}

/// One port sends the frame to another.
fn share_wire(rt: &HostRuntime, frame: Frame) -> io::Result<()> {
    let mut sender = PackedNode::new(rt.alloc(), 1, 1)?;
    let mut receiver = PackedNode::new(rt.alloc(), 1, 1)?;
    let _ = sender.offer(frame);
    match received_within(200, &mut sender, &mut receiver) {
        Some(time) => println!(rt; "port: received in bit time {time}"),
        None => println!(rt; "port: nothing"),
    }
}

/// A bus sends the frame again, because its first attempt is hit.
fn run_bus(rt: &HostRuntime, frame: Frame) -> io::Result<()> {
    let offers = [Offer {
        time: 0,
        node: 0,
        frame,
    }];
    let hits = [Hit::In {
        attempt: 0,
        offset: 16,
    }];
    let mut ports = Vec::new(rt.alloc());
    for _ in 0..2 {
        ports.push(PackedNode::new(rt.alloc(), 1, 1)?)?;
    }
    let mut levels = [Level::Recessive; 93];
    match played(ports, &offers, &hits, &mut levels) {
        Ok(ports) => {
            for port in &ports {
                let (transmit, receive) = port.counters();
                println!(rt;
                    "bus: tec {transmit} rec {receive}, {} in its log",
                    port.log().len()
                )?;
            }
            Ok(())
        }
        Err(fault) => println!(rt; "bus: {fault}"),
    }
}

/// Prints the worst-case response times of three messages without hits.
fn plan_network(rt: &HostRuntime) -> io::Result<()> {
    let wires = LongestWires::new(rt.alloc())?;
    let mut messages = Vec::new(rt.alloc());
    for (id, period) in [(0x100, 303), (0x200, 427), (0x300, 427)] {
        if let Some(id) = Id::standard(id) {
            messages.push(message(&wires, id, 7, period))?;
        }
    }
    let rate = HitRate {
        burst: 0,
        spacing: 0,
    };
    for place in 0..messages.len() {
        if let Some(bound) = latest_end(&messages, place, &rate) {
            println!(rt; "plan: {bound} bit times at most")?;
        }
    }
    Ok(())
}
