//! The order of registers and outputs in a file.
ghost use Rattle.std.specs.Prelude.{◌≡◌, ◌<◌, ℕ, false, IfOk, length, slice_index_or};
ghost use Rattle.can_gates_controller.specs.Listed.{wires_list, counters_list, heard_list, register_list, field_list, output_list};
ghost use Rattle.can_gates_controller.specs.Stepped.{IsRegister};

use crate::fields::Fields;
use crate::heard::Heard;
use crate::ports::OutputPorts;
use crate::registers::Registers;
use can_gates::{FALSE, Literal, Register, literal_at};
use can_gates_mac::{Counters, Wires};
use std::alloc::{AllocError, Global};

/// How many bits the outputs have.
const OUTPUTS: usize = 124;

/// The register with this index.
pub(crate) fn register_at(k: &Registers, place: usize) -> Literal
    requires { place < 277 }
    ensures { result ≡ slice_index_or (register_list k.now) place FALSE }
{
    if place < 20 {
        return wire_at(k.controller.wires, place);
    }
    if place < 44 {
        return counter_at(&k.controller.counters, place - 20);
    }
    if place < 174 {
        return heard_at(&k.heard, place - 44);
    }
    literal_at(&k.own, place - 174)
}

/// That of a controller without its counters.
fn wire_at(k: Wires, place: usize) -> Literal
    ensures { result ≡ slice_index_or (wires_list k) place FALSE }
{
    let all = [
        k.phase.ones,
        k.phase.twos,
        k.phase.fours,
        k.phase.eights,
        k.place.ones,
        k.place.twos,
        k.place.fours,
        k.place.eights,
        k.last,
        k.unacknowledged,
        k.first,
        k.sender,
        k.pending.ones,
        k.pending.twos,
        k.pending.fours,
        k.pending.eights,
        k.used.ones,
        k.used.twos,
        k.used.fours,
        k.used.eights,
    ];
    literal_at(&all, place)
}

/// That of its counters.
fn counter_at(k: &Counters, place: usize) -> Literal
    requires { place < 24 }
    ensures { result ≡ slice_index_or (counters_list k.now) place FALSE }
{
    if place < 9 {
        return literal_at(&k.tec, place);
    }
    if place < 17 {
        return literal_at(&k.rec, place - 9);
    }
    literal_at(&k.occurrences, place - 17)
}

/// That of what has been received.
fn heard_at(k: &Heard, place: usize) -> Literal
    requires { place < 130 }
    ensures { result ≡ slice_index_or (heard_list k.now) place FALSE }
{
    if place < 103 {
        return literal_at(&k.levels, place);
    }
    if place < 110 {
        return literal_at(&k.count, place - 103);
    }
    if place < 115 {
        let run = k.run;
        return literal_at(
            &[k.last, run.ones, run.twos, run.fours, run.eights],
            place - 110,
        );
    }
    literal_at(&k.check, place - 115)
}

/// The literals of the outputs.
pub(crate) fn list_outputs(alloc: Global, k: &OutputPorts) -> Result<Vec<Literal>, AllocError>
    ensures { IfOk result (λ r. r.items ≡ output_list k.now) }
{
    let mut all = Vec::new(alloc);
    for place in 0..OUTPUTS {
        all.push(output_at(k, place))?;
    }
    Ok(all)
}

/// The literal of the output with this index.
fn output_at(k: &OutputPorts, place: usize) -> Literal
    requires { place < 124 }
    ensures { result ≡ slice_index_or (output_list k.now) place FALSE }
{
    if place < 5 {
        let event = k.event_code;
        return literal_at(
            &[k.drive, event.ones, event.twos, event.fours, event.eights],
            place,
        );
    }
    if place < 104 {
        return field_at(&k.frame, place - 5);
    }
    if place < 113 {
        return literal_at(&k.tec, place - 104);
    }
    if place < 121 {
        return literal_at(&k.rec, place - 113);
    }
    literal_at(&[k.passive, k.off, k.legal], place - 121)
}

/// That of a frame.
fn field_at(k: &Fields, place: usize) -> Literal
    requires { place < 99 }
    ensures { result ≡ slice_index_or (field_list k.now) place FALSE }
{
    if place < 2 {
        return literal_at(&[k.extended, k.remote], place);
    }
    if place < 31 {
        return literal_at(&k.identifier, place - 2);
    }
    if place < 35 {
        let dlc = k.dlc;
        return literal_at(&[dlc.ones, dlc.twos, dlc.fours, dlc.eights], place - 31);
    }
    literal_at(&k.bytes, place - 35)
}

/// Registers with these next values, which start with 0.
pub(crate) fn starting(alloc: Global, next: &[Literal]) -> Result<Vec<Register>, AllocError>
    ensures { IfOk result (λ r. (length r.items ≡ length next.now) × ((i : ℕ) → i < length next.now → IsRegister (slice_index_or r.items i (record { next = FALSE; starts = false })) (slice_index_or next.now i FALSE))) }
{
    let mut all = Vec::new(alloc);
    for place in 0..next.len() {
        let register = Register {
            next: literal_at(next, place),
            starts: false,
        };
        all.push(register)?;
    }
    Ok(all)
}
