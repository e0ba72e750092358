//! What a receiver detects if one level of a frame is inverted on the bus. This crate has laws alone.
//!
//! A receiver finds a fault by the fifth bit of the end of frame, with one exception: it may read a longer frame, whose
//! ACK slot is recessive. It would itself drive that slot dominant, so no receiver accepts the frame.
//! (Bosch CAN 2.0 part B, sections 3.2.1, 6 and 7.1)
//!
//! | File | What it has | Defined in |
//! |---|---|---|
//! | `laws.rt` | the CRC and bursts; one inverted level in the stuffed part of a frame, and after it | `specs/WrongBit.antt`, can_wire's `specs/Crc.antt`, can_code's `specs/CodeFaults.antt` |
//!
//! `proofs/Lib.antt` lists the lemmas, with the contents of each file. The main step is in `proofs/TwoParts.antt`: after
//! the inverted level, two receivers disagree about stuff bits for only a few levels. So their unstuffed levels differ
//! within a short burst, which the CRC detects.
#![tactic(auto)]

mod laws;

pub use laws::{bursts_are_noticed, one_wrong_level_is_noticed, wrong_fixed_levels_are_noticed};
