//! Error flags, overload flags and their delimiters. (Bosch CAN 2.0 part B, sections 3.2.3, 3.2.4 and 8)
ghost use Rattle.std.specs.Prelude.{◌≡◌, ℕ, Bool};
ghost use Rattle.can_frame.specs.declared.level.Level.{Level};
ghost use Rattle.can_mac.specs.declared.phase.Phase.TheVariants.{ErrorFlag, PassiveFlag, OverloadFlag, AfterFlag, Delimiter};
ghost use Rattle.can_gates.specs.Circuit.{Makes};
ghost use Rattle.can_gates_mac.specs.Shows.{ShowsMove};

use crate::choices::first_row;
use crate::nibble::Nibble;
use crate::numbers::{
    AFTER_FLAG, DELIMITER, ERROR_FLAG, FORM_ERROR, INTERMISSION, OVERLOAD, OVERLOAD_FLAG,
    RECEIVER_BY_8, SENDER_BY_8, UNCOUNTED, UNTOLD,
};
use crate::senses::Senses;
use crate::wires::{Row, Wires};
use can_gates::{Circuit, FALSE, TRUE};

/// An active error flag.
pub(crate) fn error_flag(circuit: &mut Circuit, senses: &Senses) -> Wires
    ensures { Makes circuit.old circuit.new (λ v. (n : ℕ) → ShowsMove v senses.now result (ErrorFlag n)) }
{
    let wrong = senses.errs_in_flag();
    let on = senses.goes(ERROR_FLAG, senses.places.next, UNCOUNTED, UNTOLD);
    let ended = senses.ends_error_flag(UNCOUNTED);
    let rows = [
        Row(TRUE, senses.recessive, wrong),
        Row(TRUE, senses.places.below_5, on),
    ];
    first_row(circuit, &rows, ended)
}

/// An overload flag.
pub(crate) fn overload_flag(circuit: &mut Circuit, senses: &Senses) -> Wires
    ensures { Makes circuit.old circuit.new (λ v. (n : ℕ) → ShowsMove v senses.now result (OverloadFlag n)) }
{
    let zero = Nibble::of(0);
    let wrong = senses.errs_in_flag();
    let on = senses.goes(OVERLOAD_FLAG, senses.places.next, UNCOUNTED, UNTOLD);
    let ended = senses.goes(AFTER_FLAG, zero, UNCOUNTED, UNTOLD);
    let rows = [
        Row(TRUE, senses.recessive, wrong),
        Row(TRUE, senses.places.below_5, on),
    ];
    first_row(circuit, &rows, ended)
}

/// A passive error flag.
pub(crate) fn passive_flag(circuit: &mut Circuit, senses: &Senses) -> Wires
    ensures { Makes circuit.old circuit.new (λ v. (last : Level) (n : ℕ) (u : Bool) → ShowsMove v senses.now result (PassiveFlag last n u)) }
{
    let counted = senses.stays_in_passive_flag(FALSE, SENDER_BY_8);
    let on = senses.stays_in_passive_flag(senses.still, UNCOUNTED);
    let counted_last = senses.ends_error_flag(SENDER_BY_8);
    let ended = senses.ends_error_flag(UNCOUNTED);
    let rows = [
        Row(senses.counts, senses.run_below_6, counted),
        Row(TRUE, senses.run_below_6, on),
        Row(TRUE, senses.counts, counted_last),
    ];
    first_row(circuit, &rows, ended)
}

/// The levels between a flag and its delimiter.
pub(crate) fn after_flag(circuit: &mut Circuit, senses: &Senses) -> Wires
    ensures { Makes circuit.old circuit.new (λ v. (first : Bool) (n : ℕ) → ShowsMove v senses.now result (AfterFlag first n)) }
{
    let zero = Nibble::of(0);
    let one = Nibble::of(1);
    let ended = senses.goes(DELIMITER, one, UNCOUNTED, UNTOLD);
    let heard = senses.goes(AFTER_FLAG, senses.places.next, RECEIVER_BY_8, UNTOLD);
    let on = senses.goes(AFTER_FLAG, senses.places.next, UNCOUNTED, UNTOLD);
    let counted = senses.goes(AFTER_FLAG, zero, RECEIVER_BY_8, UNTOLD);
    let blamed = senses.goes(AFTER_FLAG, zero, SENDER_BY_8, UNTOLD);
    let rows = [
        Row(TRUE, senses.recessive, ended),
        Row(senses.first, senses.places.below_7, heard),
        Row(TRUE, senses.places.below_7, on),
        Row(TRUE, senses.receiver, counted),
    ];
    first_row(circuit, &rows, blamed)
}

/// The delimiter after a flag.
pub(crate) fn delimiter(circuit: &mut Circuit, senses: &Senses) -> Wires
    ensures { Makes circuit.old circuit.new (λ v. (n : ℕ) → ShowsMove v senses.now result (Delimiter n)) }
{
    let zero = Nibble::of(0);
    let form = Nibble::of(FORM_ERROR);
    let wrong = senses.errs(form);
    let overload = senses.goes(OVERLOAD_FLAG, zero, UNCOUNTED, OVERLOAD);
    let on = senses.goes(DELIMITER, senses.places.next, UNCOUNTED, UNTOLD);
    let own = senses.own_overload();
    let ended = senses.goes(INTERMISSION, zero, UNCOUNTED, UNTOLD);
    let rows = [
        Row(senses.dominant, senses.places.below_7, wrong),
        Row(TRUE, senses.dominant, overload),
        Row(TRUE, senses.places.below_7, on),
        Row(senses.receiver, senses.asks, own),
    ];
    first_row(circuit, &rows, ended)
}
