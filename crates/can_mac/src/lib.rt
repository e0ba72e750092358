//! Medium access of one controller: what it drives in each bit time, and what the level that it samples changes.
//! (Bosch CAN 2.0 part B, sections 3.2, 5, 7 and 8)
//!
//! [`MediumAccess`] has no queue: in each bit time it is given the pending frame, if there is one. It reports at most
//! one [`Event`] in a bit time. [`Phase`] has a diagram of the phases; docs/ACCESS.md has the rules. Events, and the
//! phases' names, are those of can_terms.
//!
//! | File | What it has | Defined in |
//! |---|---|---|
//! | `phase.rt` | [`Phase`], [`Role`], [`Overloads`], the parts of a controller's state | `specs/State.antt` |
//! | `machine.rt` | [`MediumAccess`], a controller, bit by bit | `specs/Machine.antt` |
//! | `step.rt` | one level on the bus: the transition, its error counters and its event | `specs/Machine.antt` |
//! | `poised.rt` | [`Poised`], whether a controller can take a whole frame in one step | `specs/Frames.antt` |
//! | `copying.rt` | a copy of a phase | |
//! | `driving.rt` | what a controller drives | `specs/Machine.antt` |
//! | `moves.rt` | the transition of each phase | `specs/Moves.antt` |
//! | `moves/shortcuts.rt` | the fast paths for most levels, in the order in which they are tried | `specs/Moves.antt` |
//! | `moves/stuffed_part.rt` | a frame up to the end of its CRC sequence, received in place | `specs/Moves.antt` |
//! | `moves/frame_end.rt` | CRC delimiter, ACK slot, ACK delimiter, end of frame | `specs/Moves.antt` |
//! | `moves/flags.rt` | error flags, overload flags, their delimiters | `specs/Moves.antt` |
//! | `moves/between_frames.rt` | joining, idle, intermission, suspend transmission | `specs/Moves.antt` |
//! | `laws.rt` | the invariant is kept; a frame at each controller: phases, levels driven, lost arbitration; the CRC check is divisibility | `specs/State.antt`, `specs/Frames.antt` |
//!
//! Each function of `moves` has the cases of one definition, in the same order. Most levels do not reach them: the
//! fast paths of `moves/shortcuts.rt` take these in place.
//!
//! A transition names the cause that is counted, and can_fault counts it. Of the counters a transition reads only
//! whether the controller is error passive. During the stuffed part the phase holds a front, which is updated in
//! place.
//!
//! Crates that use this one find lemmas in `proofs/`; `proofs/Lib.antt` lists the files. `Rows`, `RowsBetweenFrames`,
//! `RowsOfArbitration`, `RowsOfFrameEnds` and `RowsOfFlags` are hand-computed test vectors for the definitions;
//! docs/ACCESS.md says how to find those of a rule.
#![tactic(auto)]

mod copying;
mod driving;
mod laws;
mod machine;
mod moves;
mod phase;
mod poised;
mod step;

pub use can_terms::{ErrorKind, Event};
pub use laws::{
    a_frame_leads_all_to_one_phase, a_loser_goes_on_as_a_receiver, a_sender_drives_its_wire,
    access_is_kept, agreement_is_divisibility,
};
pub use machine::{Mac, MediumAccess, PackedMac};
pub use phase::{Overloads, Phase, Reading, Role};
pub use poised::Poised;
