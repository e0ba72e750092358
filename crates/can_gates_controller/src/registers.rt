//! All registers of a controller, and the inputs and results of a bit time.
use crate::heard::Heard;
use can_gates::Literal;
use can_gates_mac::Controller;

/// A controller with the frame on the bus.
#[derive(Clone, Copy)]
pub struct Registers {
    /// The controller without its frames, with the cause and the event of a bit time.
    pub controller: Controller,
    /// What has been received of a frame.
    pub heard: Heard,
    /// Whether each bit of the transmitter's frame is recessive, from the start of frame to the end of the data field.
    pub own: [Literal; 103],
}

/// A pending frame.
#[derive(Clone, Copy)]
pub struct Offered {
    /// Whether a frame is pending.
    pub waits: Literal,
    /// Whether each of its bits is recessive, from the start of frame to the end of the data field.
    pub levels: [Literal; 103],
}

/// The results of a bit time.
#[derive(Clone, Copy)]
pub struct BitTime {
    /// The next values of the registers.
    pub next: Registers,
    /// Whether the controller drives recessive.
    pub recessive: Literal,
}
