//! A controller's counters, and all registers of it.
ghost use Rattle.std.specs.Prelude.{◌≡◌, length};

use crate::wires::Wires;
use can_gates::Literal;

/// The error counters, and the occurrences of eleven recessive levels during bus-off, the lowest bits first.
#[derive(Clone, Copy)]
pub struct Counters {
    /// TEC. Its highest bit is whether the controller is bus-off.
    pub tec: [Literal; 9],
    /// REC.
    pub rec: [Literal; 8],
    /// Occurrences.
    pub occurrences: [Literal; 7],
    ghost widths: { (length tec ≡ 9) × (length rec ≡ 8) × (length occurrences ≡ 7) },
}

/// A controller without its frames, and without what it has received of the frame on the bus: the values of registers
/// or their next values, and the event.
#[derive(Clone, Copy)]
pub struct Controller {
    /// All but the counters.
    pub wires: Wires,
    /// The counters.
    pub counters: Counters,
}
