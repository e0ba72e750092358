//! One bit time of a controller as a circuit: can_mac's moves, the error counters, bus-off and recovery, and the driven
//! level, in gates.
//!
//! Registers hold a controller as a [`Controller`]: `specs/Numbers.antt` gives numbers to phases, places, causes and
//! events. A place is how many bits of the phase have passed, or how many levels in a row it has counted. A cause is
//! what the error counters count. [`step`] makes the gates from these registers and the inputs of a bit time to the
//! next values of the registers. In each assignment that keeps the circuit they are can_mac's `mac_step`: for any
//! controller in the registers, any pending frame and any sampled level. What is read of a frame on the bus are inputs,
//! [`Inputs`] and [`Sends`]: can_gates_controller has the registers of that frame.
//!
//! | File | What it has | Defined in |
//! |---|---|---|
//! | `nibble.rt` | [`Nibble`], a number below 16 | `specs/Nibbles.antt` |
//! | `wires.rt` | [`Wires`], the values of registers without the counters; [`Inputs`] and [`Part`], the inputs of a bit time | `specs/Numbers.antt`, `specs/Shown.antt` |
//! | `registers.rt` | [`Controller`], [`Counters`] | `specs/Stepping.antt` |
//! | `bit_time.rt` | [`step`], a bit time | `specs/Stepping.antt` |
//! | `driving.rt` | [`drive`], the driven level; [`stuffing`], [`arbitrates`], what is read of a frame | `specs/Driving.antt` |
//! | `laws.rt` | from one bit time to the next | `specs/Stepping.antt` |
//! | `numbers.rt` | the numbers, as constants | `specs/Numbers.antt` |
//! | `senses.rt`, `sensing.rt` | what all moves read, made once | `specs/Sensed.antt` |
//! | `leaves.rt` | the ends of moves, as the leaves of can_mac/specs/Moves.antt | `specs/Sensed.antt` |
//! | `moves.rt`, `moves/` | a function for each phase of can_mac/specs/Moves.antt, as a list of rows | `specs/Shows.antt` |
//! | `choices.rt` | the first row of a list whose two literals are true, and the wires at an index | `specs/Shown.antt` |
//! | `counters.rt` | TEC and REC after a bit time | `specs/Counting.antt` |
//! | `recovery.rt` | a level during bus-off | `specs/Stepping.antt` |
#![tactic(auto)]

mod bit_time;
mod choices;
mod counters;
mod driving;
mod laws;
mod leaves;
mod moves;
mod nibble;
mod numbers;
mod recovery;
mod registers;
mod senses;
mod sensing;
mod wires;

pub use bit_time::step;
pub use counters::is_passive;
pub use driving::{Sends, StuffPlace, arbitrates, drive, stuffing};
pub use laws::{a_step_is_the_next_state, asking};
pub use nibble::Nibble;
pub use registers::{Controller, Counters};
pub use wires::{Inputs, Part, Wires};
