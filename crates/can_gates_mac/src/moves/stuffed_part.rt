//! The stuffed part of a frame, from what has been received of it. (Bosch CAN 2.0 part B, sections 3.2.1, 6, 7.1 and 8)
ghost use Rattle.std.specs.Prelude.{◌≡◌, ℕ, Bool};
ghost use Rattle.can_gates.specs.Circuit.{Makes};
ghost use Rattle.can_gates_mac.specs.Shows.{ShowsPart};

use crate::choices::first_row;
use crate::nibble::Nibble;
use crate::numbers::{BIT_ERROR, CRC_DELIMITER, STUFF_ERROR, STUFFED_PART, UNCOUNTED, UNTOLD};
use crate::senses::Senses;
use crate::wires::{Part, Row, Wires};
use can_gates::{Circuit, TRUE};

/// The stuffed part of a frame.
pub(crate) fn stuffed_part(circuit: &mut Circuit, senses: &Senses, part: &Part) -> Wires
    ensures { Makes circuit.old circuit.new (λ v. ShowsPart v senses.now part.now result) }
{
    let zero = Nibble::of(0);
    let stuff = Nibble::of(STUFF_ERROR);
    let bit = Nibble::of(BIT_ERROR);
    let none = Nibble::of(UNCOUNTED);
    let wrong = circuit.and(part.due, part.repeats);
    let overridden = circuit.and(senses.sender, senses.dominant);
    let uncounted = circuit.and(overridden, part.arbitrates);
    let plain = part.due.opposite();
    let sends = circuit.and(plain, senses.sender);
    let differs = circuit.xor(part.sent, senses.recessive);
    let fails = circuit.and(sends, differs);
    let hidden = circuit.and(fails, part.sent);
    let loses = circuit.and(hidden, part.arbitrates);
    let stuff_uncounted = senses.errs_by(senses.sender, none, stuff);
    let stuff_counted = senses.errs(stuff);
    let lost_at_end = senses.loses(CRC_DELIMITER);
    let lost = senses.loses(STUFFED_PART);
    let bit_error = senses.errs(bit);
    let ended = senses.goes(CRC_DELIMITER, zero, UNCOUNTED, UNTOLD);
    let on = senses.goes(STUFFED_PART, zero, UNCOUNTED, UNTOLD);
    let rows = [
        Row(wrong, uncounted, stuff_uncounted),
        Row(TRUE, wrong, stuff_counted),
        Row(loses, part.ends, lost_at_end),
        Row(TRUE, loses, lost),
        Row(TRUE, fails, bit_error),
        Row(TRUE, part.ends, ended),
    ];
    first_row(circuit, &rows, on)
}
