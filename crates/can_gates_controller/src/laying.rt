//! The bits of a frame, made from its fields. (Bosch CAN 2.0 part B, section 3.2.1)
ghost use Rattle.std.specs.Prelude.{◌≡◌, ◌<◌, ℕ, if◌then◌else◌, length, slice_index_or};
ghost use Rattle.can_wire.specs.Wire.{head};
ghost use Rattle.can_gates.specs.Circuit.{value, Makes};
ghost use Rattle.can_gates_controller.specs.Fronts.{HoldsLevels};
ghost use Rattle.can_gates_controller.specs.Fields.{frame_in};
ghost use Rattle.can_gates_controller.specs.Laying.{standard_list, extended_list, behind_list};

use crate::fields::{Fields, clear_behind};
use crate::turning::turn_bytes;
use can_gates::{Circuit, FALSE, Literal, TRUE, literal_at};

/// The most bits of a frame from the start of frame to the end of the data field.
const PLACES: usize = 103;

/// Returns the head of the frame with these fields: its bits from the start of frame to the end of the data field.
pub fn levels_of(circuit: &mut Circuit, fields: &Fields) -> [Literal; 103]
    ensures { Makes circuit.old circuit.new (λ v. HoldsLevels v result (head (frame_in v fields.now))) }
{
    let bytes = clear_behind(circuit, fields.remote, fields.dlc, &fields.bytes);
    let levels = turn_bytes(&bytes, 0);
    lay_out(circuit, fields, &levels)
}

/// The bits by the format, given those of the data field.
fn lay_out(circuit: &mut Circuit, fields: &Fields, bytes: &[Literal; 64]) -> [Literal; 103]
    ensures { Makes circuit.old circuit.new (λ v. (p : ℕ) → p < 103 → value v (slice_index_or result p FALSE) ≡ (if value v fields.now.extended then value v (slice_index_or (extended_list fields.now bytes.now) p FALSE) else value v (slice_index_or (standard_list fields.now bytes.now) p FALSE))) }
{
    let mut all = [FALSE; PLACES];
    for place in 0..PLACES {
        let extended = extended_level(fields, bytes, place);
        let standard = standard_level(fields, bytes, place);
        all[place] = circuit.ite(fields.extended, extended, standard);
    }
    all
}

/// A bit of a standard frame.
fn standard_level(fields: &Fields, bytes: &[Literal; 64], place: usize) -> Literal
    ensures { result ≡ slice_index_or (standard_list fields.now bytes.now) place FALSE }
{
    if place == 0 {
        return FALSE;
    }
    if place < 12 {
        return literal_at(&fields.identifier, 11 - place);
    }
    level_behind(fields, bytes, place - 12)
}

/// A bit of an extended frame: SRR and IDE follow the eleven highest bits of the identifier.
fn extended_level(fields: &Fields, bytes: &[Literal; 64], place: usize) -> Literal
    ensures { result ≡ slice_index_or (extended_list fields.now bytes.now) place FALSE }
{
    if place == 0 {
        return FALSE;
    }
    if place < 12 {
        return literal_at(&fields.identifier, 29 - place);
    }
    if place < 14 {
        return TRUE;
    }
    if place < 32 {
        return literal_at(&fields.identifier, 31 - place);
    }
    level_behind(fields, bytes, place - 32)
}

/// A bit from the RTR bit on: in a standard frame IDE and r0 follow it, in an extended one r1 and r0.
fn level_behind(fields: &Fields, bytes: &[Literal; 64], place: usize) -> Literal
    ensures { result ≡ slice_index_or (behind_list fields.now bytes.now) place FALSE }
{
    if place < 7 {
        let dlc = fields.dlc;
        let first = [
            fields.remote,
            FALSE,
            FALSE,
            dlc.eights,
            dlc.fours,
            dlc.twos,
            dlc.ones,
        ];
        return literal_at(&first, place);
    }
    literal_at(bytes, place - 7)
}
