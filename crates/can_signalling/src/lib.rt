//! How one controller signals one wrong bit: the error that it reports, and its error flag. This crate has laws alone.
//! (Bosch CAN 2.0 part B, sections 3.2.3, 7.1 and 7.2)
//!
//! | File | What it has | Defined in |
//! |---|---|---|
//! | `laws.rt` | a transmitter, and a receiver, that samples one level of a frame inverted | `specs/Signalling.antt`, can_mac's `specs/Machine.antt` and `specs/Frames.antt`, can_detection's `specs/WrongBit.antt` |
//!
//! `proofs/Lib.antt` lists the lemmas, with the contents of each file. The receiver's law follows the controller to the
//! end of the stuffed part that it reads (`proofs/Parts.antt`), and from there (`proofs/AfterPart.antt`). That it does
//! not accept this frame is the theorem of can_detection.
#![tactic(auto)]

mod laws;

pub use laws::{a_receiver_signals_one_wrong_level, a_transmitter_signals_each_wrong_bit};
