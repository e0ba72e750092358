//! Joining, idle, intermission and suspend transmission. (Bosch CAN 2.0 part B, section 3.2.5)
ghost use Rattle.std.specs.Prelude.{◌≡◌, ℕ, Bool};
ghost use Rattle.can_mac.specs.declared.phase.Phase.TheVariants.{Joining, Idle, Intermission, Suspend};
ghost use Rattle.can_gates.specs.Circuit.{Makes};
ghost use Rattle.can_gates_mac.specs.Shows.{ShowsMove};

use crate::choices::first_row;
use crate::nibble::Nibble;
use crate::numbers::{
    BIT_ERROR, IDLE, INTERMISSION, JOINING, OVERLOAD, OVERLOAD_FLAG, SENDER_BY_8, SUSPEND,
    UNCOUNTED, UNTOLD,
};
use crate::senses::Senses;
use crate::wires::{Row, Wires};
use can_gates::{Circuit, FALSE, TRUE};

/// A controller during bus integration.
pub(crate) fn joining(circuit: &mut Circuit, senses: &Senses) -> Wires
    ensures { Makes circuit.old circuit.new (λ v. (n : ℕ) → ShowsMove v senses.now result (Joining n)) }
{
    let zero = Nibble::of(0);
    let anew = senses.goes(JOINING, zero, UNCOUNTED, UNTOLD);
    let on = senses.goes(JOINING, senses.places.next, UNCOUNTED, UNTOLD);
    let ended = senses.goes(IDLE, zero, UNCOUNTED, UNTOLD);
    let rows = [
        Row(TRUE, senses.dominant, anew),
        Row(TRUE, senses.places.below_10, on),
    ];
    first_row(circuit, &rows, ended)
}

/// An idle controller.
pub(crate) fn idle(circuit: &mut Circuit, senses: &Senses) -> Wires
    ensures { Makes circuit.old circuit.new (λ v. ShowsMove v senses.now result Idle) }
{
    let zero = Nibble::of(0);
    let cause = Nibble::of(SENDER_BY_8);
    let kind = Nibble::of(BIT_ERROR);
    let own = senses.begins_frame(TRUE);
    let other = senses.begins_frame(FALSE);
    // its own start of frame does not appear on the bus
    let unheard = senses.errs_by(TRUE, cause, kind);
    let stays = senses.goes(IDLE, zero, UNCOUNTED, UNTOLD);
    let rows = [
        Row(senses.dominant, senses.waits, own),
        Row(TRUE, senses.dominant, other),
        Row(TRUE, senses.waits, unheard),
    ];
    first_row(circuit, &rows, stays)
}

/// Intermission.
pub(crate) fn intermission(circuit: &mut Circuit, senses: &Senses) -> Wires
    ensures { Makes circuit.old circuit.new (λ v. (n : ℕ) → ShowsMove v senses.now result (Intermission n)) }
{
    let zero = Nibble::of(0);
    let overload = senses.goes(OVERLOAD_FLAG, zero, UNCOUNTED, OVERLOAD);
    let begun = senses.begins_frame(senses.starts);
    let on = senses.goes(INTERMISSION, senses.places.next, UNCOUNTED, UNTOLD);
    let waits = senses.goes(SUSPEND, zero, UNCOUNTED, UNTOLD);
    let ended = senses.rests();
    let rows = [
        Row(senses.dominant, senses.places.below_2, overload),
        Row(TRUE, senses.dominant, begun),
        Row(TRUE, senses.places.below_2, on),
        Row(TRUE, senses.held_back, waits),
    ];
    first_row(circuit, &rows, ended)
}

/// Suspend transmission.
pub(crate) fn suspend(circuit: &mut Circuit, senses: &Senses) -> Wires
    ensures { Makes circuit.old circuit.new (λ v. (n : ℕ) → ShowsMove v senses.now result (Suspend n)) }
{
    let begun = senses.begins_frame(FALSE);
    let on = senses.goes(SUSPEND, senses.places.next, UNCOUNTED, UNTOLD);
    let ended = senses.rests();
    let rows = [
        Row(TRUE, senses.dominant, begun),
        Row(TRUE, senses.places.below_7, on),
    ];
    first_row(circuit, &rows, ended)
}
