//! The exact maximum length on the bus of frames that differ only in their data.
//!
//! A message's identifier, kind and DLC are known; its data are not. The number of levels that still follow depends on
//! only three properties of the levels so far:
//!
//! - the last level;
//! - the length of the run that it ends, 1 to 4;
//! - the CRC sequence that the frame has if only dominant levels follow.
//!
//! For each of these, and for each number of data bytes from none to eight, [`LongestWires`] has the maximum number of
//! levels that follow. One table serves all messages.
//!
//! | File | What it has | Defined in |
//! |---|---|---|
//! | `wires.rt` | [`LongestWires`], the table; the maximum length, and data that reach it | `specs/Longest.antt` |
//! | `rows.rt` | a row of the table, computed from the next one | `specs/ToCome.antt` |
//! | `hearing.rt` | levels one after another, with their stuff bits | `specs/ToCome.antt` |
//! | `header.rt` | the levels of a frame before its data, and its CRC sequence | `specs/ToCome.antt` |
//! | `sums.rt` | what levels add to a CRC sequence | |
//! | `laws.rt` | that the maximum length is unique | `specs/Longest.antt` |
//!
//! A CRC sequence is a sum, so a recessive level changes it by the same bits whatever else follows. The starting point
//! is the CRC sequence of the frame with dominant data: a dominant level leaves it unchanged, and a recessive one adds
//! what it and the levels after it contribute. A run of recessive levels has the same maximum as a run of dominant ones
//! whose CRC sequence differs by one sum for the whole row. So a row has only entries for runs of dominant levels.
#![tactic(auto)]

mod header;
mod hearing;
mod laws;
mod rows;
mod sums;
mod wires;

pub use laws::one_longest_wire;
pub use wires::LongestWires;
