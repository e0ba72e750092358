//! The controller, the encoder and decoder of frames, and the bus, as a static library for C.
//!
//! Each export does what a call of can_node, can_code, can_bus or can_conform does. Its contract uses the same
//! definitions. Arguments are numbers, structs of numbers and slices of them: a port is a [`Handle`], a frame a
//! [`PlainFrame`], a level the number 0 or 1. A number outside the range of its field is refused with a [`Status`], and
//! then nothing changes.
//!
//! | File | What it has | Defined in |
//! |---|---|---|
//! | `status.rt` | [`Status`], the result of a call | `specs/Statuses.antt` |
//! | `codes.rt` | the numbers of events and states | can_mac's `specs/Codes.antt`, `specs/Codes.antt` |
//! | `plain.rt` | [`PlainFrame`], [`PlainHeard`], frames as plain fields | `specs/PlainFrames.antt` |
//! | `controller.rt` | [`Controller`], a port as one value | can_node's `specs/Ports.antt` |
//! | `handle.rt` | [`Handle`], a controller on the heap, or none: a plain struct of a pointer and a flag, which code that is not Rattle keeps and passes to each call | `specs/Owned.antt` |
//! | `ports.rt` | the exports that make, copy and free a port, queue a frame, and request overload frames | `specs/Calls.antt` |
//! | `bit_times.rt` | the exports that pass bit times of a port, one or many | `specs/Calls.antt`, `specs/BitTimes.antt` |
//! | `standing.rt` | [`can_c_phase`], the phase of a port and the rule that decides in it | `specs/PlainStandings.antt` |
//! | `told.rt` | the exports that read a port: counters, state, log | `specs/Calls.antt` |
//! | `coding.rt` | the exports that encode and decode | `specs/Calls.antt` |
//! | `inputs.rt` | [`PlainOffer`], [`PlainHit`], the frames queued on a bus and the injected bit errors, as plain fields | `specs/PlainInputs.antt` |
//! | `play.rt` | [`can_c_play`], a run of the ports of several handles on one bus, with offers and hits | `specs/Play.antt` |
//! | `plain_wire.rt` | [`PlainWire`], the state of a bus line between two bit times, and [`can_c_wire`], one bit time of it | `specs/PlainWires.antt` |
//!
//! A handle with all bytes 0 holds no controller. The ghost field `held` of a handle is the `PortState` of its controller,
//! as in can_node's contracts.
//!
//! bindings/ has the header, the rest of what a program in C needs, and a module for Python.
#![tactic(auto)]

mod bit_times;
mod codes;
mod coding;
mod controller;
mod handle;
mod inputs;
mod plain;
mod plain_wire;
mod play;
mod ports;
mod standing;
mod status;
mod told;

pub use bit_times::{can_c_drive, can_c_run, can_c_sample};
pub use coding::{can_c_decode, can_c_encode};
pub use controller::Controller;
pub use handle::Handle;
pub use inputs::{PlainHit, PlainOffer};
pub use plain::{PlainFrame, PlainHeard};
pub use plain_wire::{PlainWire, can_c_wire};
pub use play::can_c_play;
pub use ports::{can_c_copy, can_c_free, can_c_hold, can_c_idle, can_c_joining, can_c_offer};
pub use standing::{PlainStanding, can_c_phase};
pub use status::Status;
pub use told::{can_c_counters, can_c_entry, can_c_log_length, can_c_missed, can_c_state};
