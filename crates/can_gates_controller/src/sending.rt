//! The frame of a transmitter: its next bit, and its format. (Bosch CAN 2.0 part B, section 3.2.1)
ghost use Rattle.std.specs.Prelude.{◌≡◌, ◌<◌, ℕ, Bool, List, length, take};
ghost use Rattle.can_frame.specs.Levels.{is_recessive};
ghost use Rattle.can_frame.specs.Parts.{Parts, IsFrame};
ghost use Rattle.can_wire.specs.Wire.{head, unstuffed};
ghost use Rattle.can_code.specs.Front.{FrontParts};
ghost use Rattle.can_code.specs.Sending.{sent_level};
ghost use Rattle.can_gates.specs.Circuit.{value, Makes};
ghost use Rattle.can_gates.specs.Words.{number};
ghost use Rattle.can_gates_controller.specs.Fronts.{HoldsFront, HoldsLevels};

use crate::front::frame_length;
use crate::heard::Heard;
use can_gates::{Circuit, Literal, constant};

/// How many bits a CRC sequence has.
const CHECK_LENGTH: u64 = 15;

/// The next bit of a transmitter's frame, if what it has received is what it has sent: up to the end of the data field
/// from its registers, then the highest bit of the CRC register.
pub(crate) fn next_sent(circuit: &mut Circuit, heard: &Heard, own: &[Literal; 103]) -> Literal
    ensures { Makes circuit.old circuit.new (λ v. (f : Parts) (front : FrontParts) → IsFrame f → HoldsLevels v own.now (head f) → HoldsFront v heard.now front → front.unstuffed ≡ take (length front.unstuffed) (unstuffed f) → value v result ≡ is_recessive (sent_level f (length front.unstuffed))) }
{
    let level = circuit.select(own, &heard.count);
    let end = head_length(circuit, own);
    let of_head = circuit.less(&heard.count, &end);
    circuit.ite(of_head, level, heard.check[0])
}

/// How many bits the frame has up to the end of the data field.
pub(crate) fn head_length(circuit: &mut Circuit, own: &[Literal; 103]) -> [Literal; 7]
    ensures { Makes circuit.old circuit.new (λ v. (f : Parts) → IsFrame f → HoldsLevels v own.now (head f) → number v result ≡ length (head f)) }
{
    let length = frame_length(circuit, own);
    let fifteen = constant::<7>(CHECK_LENGTH);
    circuit.lowered(&length, &fifteen)
}

/// Whether the frame is extended.
pub(crate) fn is_extended(own: &[Literal; 103]) -> Literal
    ensures { (v : ℕ → Bool) (f : Parts) → IsFrame f → HoldsLevels v own.now (head f) → value v result ≡ f.id.extended }
{
    own[13]
}
