//! An invariant of the transmitter's frame: true in each state that a run reaches. (Bosch CAN 2.0 part B, section 3.2.1)
ghost use Rattle.std.specs.Prelude.{◌≡◌, ◌<◌, ℕ, true};
ghost use Rattle.can_frame.specs.Parts.{Parts, IsFrame};
ghost use Rattle.can_wire.specs.Wire.{head};
ghost use Rattle.can_mac.specs.State.{MacState};
ghost use Rattle.can_gates.specs.Circuit.{value, value_at, Makes};
ghost use Rattle.can_gates.specs.Words.{number};
ghost use Rattle.can_gates_controller.specs.Fronts.{HoldsLevels};
ghost use Rattle.can_gates_controller.specs.Following.{ShowsWithin};
ghost use Rattle.can_gates_controller.specs.Whole.{HoldsAll};

use crate::following::Within;
use crate::heard::Heard;
use crate::legal::{is_past, levels_are_legal};
use crate::registers::Registers;
use crate::sending::head_length;
use can_gates::{Circuit, FALSE, Literal, TRUE};

/// How many bits of a frame have a register.
const PLACES: usize = 103;

/// Whether a transmitter's registers hold a frame, and in the stuffed part it has received what it sent.
pub(crate) fn own_is_legal(circuit: &mut Circuit, within: Within, held: &Registers) -> Literal
    ensures { Makes circuit.old circuit.new (λ v. (m : MacState) → HoldsAll v held.now m → ShowsWithin v within m.phase → value v result ≡ true) }
{
    let end = head_length(circuit, &held.own);
    let form = form_is_legal(circuit, &held.own);
    let unused = levels_are_legal(circuit, &held.own, &end);
    let sent = sent_is_legal(circuit, &held.heard, &held.own, &end);
    let part = circuit.or(within.part.opposite(), sent);
    let frame = circuit.and(form, unused);
    let legal = circuit.and(frame, part);
    let busy = circuit.or(within.part, within.end);
    let sends = circuit.and(busy, held.controller.wires.sender);
    circuit.ite(sends, legal, TRUE)
}

/// Whether the start of frame is dominant; in an extended frame SRR recessive, r1 and r0 dominant; in a standard one r0
/// dominant.
fn form_is_legal(circuit: &mut Circuit, own: &[Literal; 103]) -> Literal
    ensures { Makes circuit.old circuit.new (λ v. (f : Parts) → IsFrame f → HoldsLevels v own.now (head f) → value v result ≡ true) }
{
    let reserved = circuit.and(own[33].opposite(), own[34].opposite());
    let extended = circuit.and(own[12], reserved);
    let format = circuit.ite(own[13], extended, own[14].opposite());
    circuit.and(own[0].opposite(), format)
}

/// Whether what has been received is what was sent, up to the end of the data field, at the bit `end`.
fn sent_is_legal(
    circuit: &mut Circuit,
    heard: &Heard,
    own: &[Literal; 103],
    end: &[Literal; 7],
) -> Literal
    ensures { Makes circuit.old circuit.new (λ v. ((p : ℕ) → p < number v heard.now.count → p < number v end.now → p < 103 → value_at v heard.now.levels p ≡ value_at v own.now p) → value v result ≡ true) }
{
    let mut legal = TRUE;
    let mut unheard = FALSE;
    let mut unused = FALSE;
    for place in 0..PLACES {
        unheard = is_past(circuit, unheard, &heard.count, place);
        unused = is_past(circuit, unused, end, place);
        let behind = circuit.or(unheard, unused);
        let differ = circuit.xor(heard.levels[place], own[place]);
        let wrong = circuit.and(behind.opposite(), differ);
        legal = circuit.and(legal, wrong.opposite());
    }
    legal
}
