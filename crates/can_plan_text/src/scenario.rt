//! The worst case of a message as a scenario, a TOML document.
ghost use Rattle.std.specs.Prelude.{◌≡◌, ◌++◌, codes, decimal, drop, take, OnOk};
ghost use Rattle.std.specs.List.{flat_map};
ghost use Rattle.can_plan_text.specs.Scenario.{head_lines, log_room as log_room_of, offer_line, offer_lines, own_port, own_ports, port_begin, port_end, scenario_text, shared_port};

use crate::case::{Sequence, WorstCase};
use can_frame::Frame;
use document_values::{push_number, push_text};
use std::alloc::AllocError;

/// How many ports have the frames of a single message. One more has those of the others, or listens.
const OWN_PORTS: usize = 63;

/// The greatest capacity of a log, in entries.
const MOST_LOG_ROOM: u64 = 65_536;

/// Appends the scenario of a worst case, in version 2 of the format. Each message has a port, whose queue has its frame
/// with the times of its offers. One more port listens; if there are more than 63 messages, it has those from the 64th
/// on. Each log has the capacity for all frames, but at most 65,536.
pub fn push_scenario(out: &mut Vec<u8>, worst: &WorstCase) -> Result<(), AllocError>
    ensures { OnOk result (out.new.items ≡ out.old.items ++ scenario_text worst.now) }
{
    let room = log_room(&worst.sequences);
    let (own, shared) = divided(&worst.sequences);
    push_head(out, worst.long + 1)?;
    push_own_ports(out, room, own)?;
    push_shared_port(out, room, shared)
}

/// Returns the messages that have ports of their own, and the others.
fn divided(sequences: &[Sequence]) -> (&[Sequence], &[Sequence])
    ensures own { result.0.now ≡ take own_ports sequences.now }
    ensures shared { result.1.now ≡ drop own_ports sequences.now }
{
    sequences.split_at(OWN_PORTS.min(sequences.len()))
}

/// Appends the fields at the top.
#[tactic(auto, unfolding(crate::specs::Scenario::head_lines))]
fn push_head(out: &mut Vec<u8>, bits: u64) -> Result<(), AllocError>
    ensures { OnOk result (out.new.items ≡ out.old.items ++ head_lines bits) }
{
    push_line(out, b"version = 2\nbits = ", bits)
}

/// Returns the capacity of each log in entries: the number of all frames, but at most the greatest capacity.
fn log_room(sequences: &[Sequence]) -> u64
    ensures { result ≡ log_room_of sequences.now }
{
    let mut frames = 0u64;
    for sequence in sequences {
        frames = frames
            .saturating_add(sequence.times.len() as u64)
            .min(MOST_LOG_ROOM);
    }
    frames
}

/// Appends a port for each of these messages.
fn push_own_ports(out: &mut Vec<u8>, room: u64, sequences: &[Sequence]) -> Result<(), AllocError>
    ensures { OnOk result (out.new.items ≡ out.old.items ++ flat_map (own_port room) sequences.now) }
{
    for sequence in sequences {
        push_own_port(out, room, sequence)?;
    }
    Ok(())
}

/// Appends the port of one message.
#[tactic(auto, unfolding(crate::specs::Scenario::own_port))]
fn push_own_port(out: &mut Vec<u8>, room: u64, sequence: &Sequence) -> Result<(), AllocError>
    ensures { OnOk result (out.new.items ≡ out.old.items ++ own_port room sequence.now) }
{
    push_begin(out)?;
    push_offers(out, &sequence.frame, &sequence.times)?;
    push_end(out, room)
}

/// Appends the port that has the frames of all these messages.
#[tactic(auto, unfolding(crate::specs::Scenario::shared_port))]
fn push_shared_port(out: &mut Vec<u8>, room: u64, sequences: &[Sequence]) -> Result<(), AllocError>
    ensures { OnOk result (out.new.items ≡ out.old.items ++ shared_port room sequences.now) }
{
    push_begin(out)?;
    push_all_offers(out, sequences)?;
    push_end(out, room)
}

/// Appends the text before the offers to a port.
#[tactic(auto, unfolding(crate::specs::Scenario::port_begin))]
fn push_begin(out: &mut Vec<u8>) -> Result<(), AllocError>
    ensures { OnOk result (out.new.items ≡ out.old.items ++ port_begin) }
{
    push_text(out, b"\n[[port]]\nqueue = [\n")
}

/// Appends the text after the offers.
#[tactic(auto, unfolding(crate::specs::Scenario::port_end))]
fn push_end(out: &mut Vec<u8>, room: u64) -> Result<(), AllocError>
    ensures { OnOk result (out.new.items ≡ out.old.items ++ port_end room) }
{
    push_line(out, b"]\nlog = ", room)
}

/// Appends a text, a decimal number, and the end of the line.
fn push_line(out: &mut Vec<u8>, text: &[u8], number: u64) -> Result<(), AllocError>
    ensures { OnOk result (out.new.items ≡ out.old.items ++ (text.now ++ (decimal number ++ codes "\n"))) }
{
    push_text(out, text)?;
    push_number(out, number)?;
    push_text(out, b"\n")
}

/// Appends the offers of these messages.
fn push_all_offers(out: &mut Vec<u8>, sequences: &[Sequence]) -> Result<(), AllocError>
    ensures { OnOk result (out.new.items ≡ out.old.items ++ flat_map offer_lines sequences.now) }
{
    for sequence in sequences {
        push_offers(out, &sequence.frame, &sequence.times)?;
    }
    Ok(())
}

/// Appends the offers of a frame, a line for each time.
fn push_offers(out: &mut Vec<u8>, frame: &Frame, times: &[u64]) -> Result<(), AllocError>
    ensures { OnOk result (out.new.items ≡ out.old.items ++ flat_map (offer_line frame.now) times.now) }
{
    for time in times {
        push_offer(out, frame, *time)?;
    }
    Ok(())
}

/// Appends the line of an offer.
#[tactic(auto, unfolding(crate::specs::Scenario::offer_line))]
fn push_offer(out: &mut Vec<u8>, frame: &Frame, time: u64) -> Result<(), AllocError>
    ensures { OnOk result (out.new.items ≡ out.old.items ++ offer_line frame.now time) }
{
    push_text(out, b"    [")?;
    push_number(out, time)?;
    push_text(out, b", \"")?;
    push_text(out, &frame.text_bytes())?;
    push_text(out, b"\"],\n")
}
