//! A frame as its fields. (Bosch CAN 2.0 part B, section 3.2.1)
ghost use Rattle.std.specs.Prelude.{◌≡◌, ◌<◌, ℕ, Bool, nat_lt};
ghost use Rattle.can_frame.specs.Parts.{IsFrame, byte_count};
ghost use Rattle.can_gates.specs.Circuit.{value, Makes};
ghost use Rattle.can_gates_mac.specs.Nibbles.{nibble};
ghost use Rattle.can_gates_controller.specs.Fields.{frame_in};
ghost use Rattle.can_gates_controller.specs.Laying.{IsCleared};

use can_gates::{Circuit, FALSE, Literal, literal_at};
use can_gates_mac::Nibble;

/// How many bits the data have.
const PLACES: usize = 64;

/// A frame as its fields.
#[derive(Clone, Copy)]
pub struct Fields {
    /// Whether its identifier has 29 bits.
    pub extended: Literal,
    /// Whether it is a remote frame.
    pub remote: Literal,
    /// The identifier, the lowest bit first. A standard one is in the lowest eleven.
    pub identifier: [Literal; 29],
    /// The data length code.
    pub dlc: Nibble,
    /// The data: byte k is bits 8 k to 8 k + 7, the lowest first.
    pub bytes: [Literal; 64],
}

impl Fields {
    /// For any values of its literals, the fields are those of a frame. A law: it does nothing.
    pub fn are_a_frame(&self)
        ensures { (v : ℕ → Bool) → IsFrame (frame_in v self.now) }
    {
        let _dlc = &self.dlc;
    }
}

/// The data of a frame with this RTR bit and data length code; 0 after its last byte.
pub(crate) fn clear_behind(
    circuit: &mut Circuit,
    remote: Literal,
    dlc: Nibble,
    bytes: &[Literal],
) -> [Literal; 64]
    ensures { Makes circuit.old circuit.new (λ v. IsCleared v result bytes.now (byte_count (value v remote) (nibble v dlc))) }
{
    let mut all = [FALSE; PLACES];
    for place in 0..PLACES {
        let counts = has_byte(circuit, remote, dlc, place / 8);
        all[place] = circuit.and(counts, literal_at(bytes, place));
    }
    all
}

/// Whether a frame has the byte with this index; the first is 0.
fn has_byte(circuit: &mut Circuit, remote: Literal, dlc: Nibble, byte: usize) -> Literal
    requires { byte < 8 }
    ensures { Makes circuit.old circuit.new (λ v. value v result ≡ nat_lt byte (byte_count (value v remote) (nibble v dlc))) }
{
    let number = Nibble::of(byte as u8);
    let below = circuit.less(
        &[number.ones, number.twos, number.fours, number.eights],
        &[dlc.ones, dlc.twos, dlc.fours, dlc.eights],
    );
    circuit.and(below, remote.opposite())
}
