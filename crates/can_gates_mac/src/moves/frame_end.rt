//! The end of a frame: CRC delimiter, ACK slot, ACK delimiter and end of frame. (Bosch CAN 2.0 part B, sections 3.2.1,
//! 5 and 7)
ghost use Rattle.std.specs.Prelude.{◌≡◌, ℕ, Bool};
ghost use Rattle.can_mac.specs.declared.phase.Reading.{Reading};
ghost use Rattle.can_mac.specs.declared.phase.Phase.TheVariants.{CrcDelimiter, AckSlot, AckDelimiter, EndOfFrame};
ghost use Rattle.can_gates.specs.Circuit.{Makes};
ghost use Rattle.can_gates_mac.specs.Shows.{ShowsMove};

use crate::choices::first_row;
use crate::nibble::Nibble;
use crate::numbers::{
    ACK_DELIMITER, ACK_ERROR, ACK_SLOT, BIT_ERROR, CRC_ERROR, END_OF_FRAME, FORM_ERROR,
    FRAME_RECEIVED, FRAME_SENT, INTERMISSION, OVERLOAD, OVERLOAD_FLAG, RECEIVED, SENT, UNCOUNTED,
    UNTOLD,
};
use crate::senses::Senses;
use crate::wires::{Row, Wires};
use can_gates::{Circuit, TRUE};

/// The last bit of the end of frame.
const LAST_OF_FRAME: u8 = 6;

/// The CRC delimiter.
pub(crate) fn crc_delimiter(circuit: &mut Circuit, senses: &Senses) -> Wires
    ensures { Makes circuit.old circuit.new (λ v. (reading : Reading) → ShowsMove v senses.now result (CrcDelimiter reading)) }
{
    let zero = Nibble::of(0);
    let on = senses.goes(ACK_SLOT, zero, UNCOUNTED, UNTOLD);
    let wrong = senses.errs_in_form();
    let rows = [Row(TRUE, senses.recessive, on)];
    first_row(circuit, &rows, wrong)
}

/// The ACK slot.
pub(crate) fn ack_slot(circuit: &mut Circuit, senses: &Senses) -> Wires
    ensures { Makes circuit.old circuit.new (λ v. (reading : Reading) → ShowsMove v senses.now result (AckSlot reading)) }
{
    let zero = Nibble::of(0);
    let bit = Nibble::of(BIT_ERROR);
    let ack = Nibble::of(ACK_ERROR);
    let acknowledged = senses.goes(ACK_DELIMITER, zero, UNCOUNTED, UNTOLD);
    let passive = senses.lacks_acknowledgement();
    let alone = senses.errs(ack);
    let received = senses.goes(ACK_DELIMITER, zero, FRAME_RECEIVED, UNTOLD);
    let unheard = senses.errs(bit);
    let listens = senses.goes(ACK_DELIMITER, zero, UNCOUNTED, UNTOLD);
    let rows = [
        Row(senses.sender, senses.dominant, acknowledged),
        Row(senses.sender, senses.passive, passive),
        Row(TRUE, senses.sender, alone),
        Row(senses.dominant, senses.agrees, received),
        Row(senses.recessive, senses.agrees, unheard),
    ];
    first_row(circuit, &rows, listens)
}

/// The ACK delimiter.
pub(crate) fn ack_delimiter(circuit: &mut Circuit, senses: &Senses) -> Wires
    ensures { Makes circuit.old circuit.new (λ v. (reading : Reading) → ShowsMove v senses.now result (AckDelimiter reading)) }
{
    let zero = Nibble::of(0);
    let crc = Nibble::of(CRC_ERROR);
    let wrong = senses.errs_in_form();
    let differs = senses.errs(crc);
    let on = senses.goes(END_OF_FRAME, zero, UNCOUNTED, UNTOLD);
    let rows = [
        Row(TRUE, senses.dominant, wrong),
        Row(TRUE, senses.refuses, differs),
    ];
    first_row(circuit, &rows, on)
}

/// The end of frame.
pub(crate) fn end_of_frame(circuit: &mut Circuit, senses: &Senses) -> Wires
    ensures { Makes circuit.old circuit.new (λ v. (reading : Reading) (n : ℕ) → ShowsMove v senses.now result (EndOfFrame reading n)) }
{
    let zero = Nibble::of(0);
    let bit = Nibble::of(BIT_ERROR);
    let form = Nibble::of(FORM_ERROR);
    let last = Nibble::of(LAST_OF_FRAME);
    let overridden = senses.errs(bit);
    let sends = senses.goes(END_OF_FRAME, senses.places.next, UNCOUNTED, UNTOLD);
    let sent = senses.goes(INTERMISSION, zero, FRAME_SENT, SENT);
    let wrong = senses.errs(form);
    let overload = senses.goes(OVERLOAD_FLAG, zero, UNCOUNTED, OVERLOAD);
    let on = senses.goes(END_OF_FRAME, senses.places.next, UNCOUNTED, UNTOLD);
    let received = senses.goes(END_OF_FRAME, last, UNCOUNTED, RECEIVED);
    let own = senses.own_overload();
    let ended = senses.goes(INTERMISSION, zero, UNCOUNTED, UNTOLD);
    let rows = [
        Row(senses.sender, senses.dominant, overridden),
        Row(senses.sender, senses.places.below_6, sends),
        Row(TRUE, senses.sender, sent),
        Row(senses.dominant, senses.places.below_6, wrong),
        Row(TRUE, senses.dominant, overload),
        Row(TRUE, senses.places.below_5, on),
        Row(TRUE, senses.places.below_6, received),
        Row(TRUE, senses.asks, own),
    ];
    first_row(circuit, &rows, ended)
}
