//! The encoding of a frame on the bus: as its transmitter drives it, and as a receiver receives it.
//!
//! A frame's `head` (start of frame, identifier, control field, data) is followed by its CRC sequence. Both are bit
//! stuffed. A tail of ten levels without stuff bits ends the frame. (Bosch CAN 2.0 part B, sections 3.2.1 and 6) A
//! receiver accepts a few of these levels at either value. The frame with these levels is [`Heard`].
//!
//! | File | What it has | Defined in |
//! |---|---|---|
//! | `crc.rt` | [`crc15`], the CRC sequence | `specs/Crc.antt` |
//! | `crc_run.rt` | [`CrcRun`], the CRC sequence of levels that arrive one by one | `specs/Crc.antt` |
//! | `crc_places.rt`, `crc_table.rt` | the CRC sequence of a number's levels by its bytes, and what each byte adds | `specs/Crc.antt` |
//! | `stuffing.rt` | [`stuff`], the stuff bits, and [`run_after`], the run that a level ends | `specs/Stuffing.antt` |
//! | `stuff_steps.rt`, `stuff_steps/` | [`LONGEST_WIRE`], and levels laid out with their stuff bits, eight a step | `specs/StuffSteps.antt` |
//! | `heard.rt` | [`Heard`], a frame as received | `specs/Heard.antt` |
//! | `frame_bits.rt` | [`FrameBits`], the unstuffed levels of a frame, received or laid out | |
//! | `plain_bits.rt` | [`PlainBits`], these levels one by one | |
//! | `packed_bits.rt`, `two_words.rt` | [`PackedBits`], these levels in a register | |
//! | `checked_bits.rt` | [`CheckedBits`], these levels in a register, with their running CRC sequence | |
//! | `layout.rt` | the head and the CRC sequence of a frame as received, unstuffed | `specs/Heard.antt` |
//! | `spelling.rt` | [`respell`], the encoding of a frame as received | `specs/Heard.antt` |
//! | `codes.rt` | [`front_of_codes`] and [`write_codes`], levels as numbers | |
//! | `encoding.rt` | [`encode`] and [`encode_into`], the levels that the transmitter of a frame drives | `specs/Wire.antt` |
//! | `frame_number.rt` | the unstuffed levels of a frame as transmitted, as the bits of a number | `specs/FrameNumber.antt` |
//! | `digits.rt`, `digits/` | [`driven_digits`], the digits of what the transmitter of a frame drives | `specs/StuffSteps.antt` |
//! | `places.rt` | the places of the unstuffed levels of a frame, [`rtr_place`] among them | `specs/Layout.antt` |
//! | `laws.rt` | that a CRC sequence, a stuffed list, the encoding of a frame and of a frame as received are unique, and that no encoding is a proper prefix of another | |
//!
//! Each is defined twice: by a relation that says what it is (the generator divides it, a stuff bit follows five equal
//! levels), and by a function that computes it. The contracts state that both agree. can_code drives and receives these
//! levels one by one.
//!
//! [`PlainBits`], [`PackedBits`] and [`CheckedBits`] each satisfy the contract of [`FrameBits`], over which the crates
//! that use them are generic. The plain form follows the definitions. In a packed one, appending a level is a shift,
//! and the CRC sequence comes from a table of what each byte adds at its place. A checked one also updates the CRC
//! sequence with each level. The same functions lay out levels over each of them.
//!
//! [`encode`] lays out a register, then inserts the stuff bits, eight levels a step. A table gives, for each run before
//! them, the stuffed levels of a byte and the next row. The proof computes each entry from the definition
//! (`stuffed_from`). [`encode_into`] writes the levels to an array of the caller, without a copy. [`driven_digits`]
//! uses the same table to go from the bits of a number to digits, without levels in between. Levels before the start of
//! frame, of which no two neighbouring ones are equal, fill up the number to whole bytes. [`stuff`] takes one level
//! after another, and gives the same list.
//!
//! `proofs/Lib.antt` lists the lemmas that other crates may use, with the contents of each file.
#![tactic(auto)]

mod checked_bits;
mod codes;
mod crc;
mod crc_places;
mod crc_run;
mod crc_table;
mod digits;
mod encoding;
mod frame_bits;
mod frame_number;
mod heard;
mod laws;
mod layout;
mod packed_bits;
pub mod places;
mod plain_bits;
mod spelling;
mod stuff_steps;
mod stuffing;
mod two_words;

pub use checked_bits::CheckedBits;
pub use codes::{front_of_codes, write_codes};
pub use crc::crc15;
pub use crc_run::CrcRun;
pub use digits::{DIGITS_ROOM, driven_digits};
pub use encoding::{encode, encode_into};
pub use frame_bits::FrameBits;
pub use heard::Heard;
pub use laws::{
    no_spelling_begins_another, one_check_sequence, one_heard, one_spelling, one_stuffing, one_wire,
};
pub use layout::{head, head_and_crc};
pub use packed_bits::PackedBits;
pub use places::rtr_place;
pub use plain_bits::PlainBits;
pub use spelling::respell;
pub use stuff_steps::LONGEST_WIRE;
pub use stuffing::{LONGEST_RUN, run_after, stuff};
