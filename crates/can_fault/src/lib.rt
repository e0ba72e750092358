//! Fault confinement: the two error counters of a node, the state that follows from them, and recovery from bus
//! off. (Bosch CAN 2.0 part B, section 8)
//!
//! | File | What it has | Defined in |
//! |---|---|---|
//! | `cause.rt` | [`Cause`], what changes a counter | `specs/Counters.antt` |
//! | `state.rt` | [`State`], the state that follows from the counters, and its word | `specs/Counters.antt`, `specs/Words.antt` |
//! | `confine.rt` | [`Confine`], the counters of a node, and its progress in recovery from bus off | `specs/Counters.antt`, `specs/Recovery.antt` |
//! | `laws.rt` | that the invariant of a node is preserved, what the runs of a list are, that recovery goes level by level, and how long bus off lasts | `specs/Recovery.antt` |
//!
//! Recovery is defined twice: over a list of levels, by its recessive runs, and level by level, as it is computed.
//! The contracts state that both agree.
//!
//! `proofs/` has lemmas on the runs of a list as it grows (`RunLemmas`), and on a node while it is bus off
//! (`RecoveryLemmas`). `Rows` has hand-computed test vectors for the definitions.
#![tactic(auto)]

mod cause;
mod confine;
mod laws;
mod state;

pub use cause::Cause;
pub use confine::Confine;
pub use laws::{
    bus_off_lasts_1408_levels, confinement_is_kept, recovery_goes_level_by_level,
    runs_end_at_dominant_levels,
};
pub use state::State;
