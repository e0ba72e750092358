//! The inputs and outputs of a step.
use crate::fields::Fields;
use can_gates::Literal;
use can_gates_mac::Nibble;

/// The inputs of a step.
#[derive(Clone, Copy)]
pub struct InputPorts {
    /// Whether the registers take an idle or joining controller, whatever the other inputs are.
    pub reset: Literal,
    /// Whether it is a joining one.
    pub integrating: Literal,
    /// Whether a bit time passes. If not, nothing changes.
    pub enable: Literal,
    /// Whether the sampled level is recessive.
    pub bus: Literal,
    /// Whether own overload frames are requested, before the bit time.
    pub overload_request: Literal,
    /// How many, 0 to 2: the lower bit. A request for 3 is refused, and changes nothing.
    pub overload_count_ones: Literal,
    /// The higher bit.
    pub overload_count_twos: Literal,
    /// Whether a frame is pending.
    pub waits: Literal,
    /// That frame.
    pub frame: Fields,
}

/// The outputs of a step.
#[derive(Clone, Copy)]
pub struct OutputPorts {
    /// Whether the controller drives recessive.
    pub drive: Literal,
    /// The number of its event. (can_gates_mac's `specs/Numbers.antt`)
    pub event_code: Nibble,
    /// The frame of the event, if it has one.
    pub frame: Fields,
    /// TEC.
    pub tec: [Literal; 9],
    /// REC.
    pub rec: [Literal; 8],
    /// Whether one of them is at least 128.
    pub passive: Literal,
    /// Whether the controller is bus-off.
    pub off: Literal,
    /// An invariant: true in each state that a run reaches.
    pub legal: Literal,
}
