//! A controller with the frame on the bus, as a circuit: can_gates_mac's bit time, and the registers of frames that it
//! reads.
//!
//! [`Registers`] hold a controller, what it has received of a frame, and the frame that it transmits. Both frames have
//! a register for each of the first 103 unstuffed bits. Of the received one there are also the number of bits, the run
//! of equal levels that ends it, and the CRC register. [`bit_time`] makes the gates from these registers, the pending
//! frame and the sampled level to the next values of the registers and to the driven level. In each assignment that
//! keeps the circuit, for any controller in the registers, these are can_mac's `mac_step` and `mac_drives`, and the
//! frame is that of the event. [`controller_circuit`] makes all of it in a circuit of its own, with a reset, an enable
//! and requests for overload frames. Each run of that circuit is a run of can_mac, step by step.
//!
//! Inputs and outputs have a frame as its fields. Inside the circuit a frame is its bits from the start of frame to the
//! end of the data field, without stuff bits, a literal for each: [`levels_of`] makes them from [`Fields`], and
//! [`fields_of`] makes the fields from them.
//!
//! | File | What it has | Defined in |
//! |---|---|---|
//! | `design.rt`, `making.rt` | [`Design`], [`controller_circuit`]: a circuit of its own | `specs/Steps.antt`, `Runs.antt` |
//! | `ports.rt` | [`InputPorts`], [`OutputPorts`]: its inputs and outputs | `specs/Runs.antt` |
//! | `signals.rt`, `listing.rt` | which signals are inputs and registers, and their order in a file | `specs/Listed.antt` |
//! | `stepping.rt` | a step: a reset, a bit time, or nothing | `specs/Stepped.antt` |
//! | `legal.rt`, `own_frame.rt` | an invariant of the registers, for solvers | |
//! | `registers.rt` | [`Registers`], [`Offered`], [`BitTime`] | `specs/Whole.antt` |
//! | `whole.rt` | [`bit_time`], a bit time | `specs/Whole.antt` |
//! | `heard.rt`, `front.rt` | [`Heard`], the registers of a received frame; [`hear`], one more level; [`ends`], whether its stuffed part ends; [`read`], what the move reads | `specs/Fronts.antt` |
//! | `check.rt` | the CRC register, and whether the CRC sequence is right | `specs/Fronts.antt` |
//! | `sending.rt` | the next bit of a transmitter | `specs/Whole.antt` |
//! | `seen.rt`, `hearing.rt` | [`Seen`], what is read of the bus, of the pending frame and of the transmitter's frame; [`step_hearing`], a bit time without that frame | `specs/Holding.antt` |
//! | `following.rt`, `next_front.rt` | what has been received of a frame after a bit time, by the phase | `specs/Following.antt` |
//! | `fields.rt` | [`Fields`], a frame as its fields | `specs/Fields.antt` |
//! | `laying.rt` | [`levels_of`], the bits of a frame from its fields | `specs/Fields.antt` |
//! | `telling.rt` | [`fields_of`], the fields of a frame from its bits; [`told_frame`], those of the frame of an event | `specs/Fields.antt` |
//! | `levels.rt`, `turning.rt` | choices between levels, and literals in reverse order | `specs/Laying.antt` |
#![tactic(auto)]

mod check;
mod design;
mod fields;
mod following;
mod front;
mod heard;
mod hearing;
mod laying;
mod legal;
mod levels;
mod listing;
mod making;
mod next_front;
mod own_frame;
mod ports;
mod registers;
mod seen;
mod sending;
mod signals;
mod stepping;
mod telling;
mod turning;
mod whole;

pub use design::Design;
pub use fields::Fields;
pub use front::{ends, hear, read};
pub use heard::Heard;
pub use hearing::step_hearing;
pub use laying::levels_of;
pub use making::controller_circuit;
pub use ports::{InputPorts, OutputPorts};
pub use registers::{BitTime, Offered, Registers};
pub use seen::Seen;
pub use telling::{fields_of, told_frame};
pub use whole::bit_time;
