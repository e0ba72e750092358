//! The judge of the conformance kit: the run of the reference in a test case, and whether a controller's transcript
//! agrees with it. (docs/CONFORMANCE.md)
//!
//! A case is played against a **lower tester**, which shares the bus with one controller. In each bit time the
//! controller drives a level, which depends only on its past, and the tester drives its own. The bus is dominant if
//! either drives dominant. A [`Script`](can_terms::Script) says what the tester drives, and which frames and overload
//! requests the controller gets.
//!
//! Cases and transcripts are data of can_terms. Calls:
//!
//! - [`expect`] returns what the reference does in a case, a [`Transcript`](can_terms::Transcript).
//! - [`judge`] compares the transcript of another controller with it, if its
//!   [times rise](can_terms::Transcript::is_told). It returns a pass, or the first difference: a [`Failure`], with the
//!   phase of the reference before that bit time and the rule of docs/ACCESS.md that decides in it.
//! - [`started_node`] returns the reference itself, for a case that comes bit by bit. It gets frames with `offer` and
//!   overload requests with `hold`, as any port. [`meet`] passes one bit time with the tester, and [`ending_of`]
//!   returns its state and counters.
//!
//! | File | What it has | Defined in |
//! |---|---|---|
//! | `meeting.rt` | [`started_node`], and [`meet`], one bit time of a port with the tester | `specs/Runs.antt` |
//! | `moment.rt` | [`Moment`], what the reference does in a bit time | `specs/Runs.antt` |
//! | `bench.rt` | the test bench: the reference, played through a case | `specs/Runs.antt` |
//! | `outlook.rt` | in which bit times frames or requests come | `specs/Walks.antt` |
//! | `watch.rt` | the rule that decides in each bit time, and the last event before it | `specs/Runs.antt` |
//! | `standing.rt` | [`Standing`]: phase, role, rule and last event | `specs/Standings.antt` |
//! | `expecting.rt` | [`expect`] | `specs/Transcripts.antt` |
//! | `judging.rt` | [`judge`], [`Verdict`] | `specs/Verdicts.antt` |
//! | `laws.rt` | that a case has one transcript, which passes, and a transcript one verdict | `specs/Transcripts.antt`, `specs/Verdicts.antt` |
#![tactic(auto)]

mod bench;
mod expecting;
mod judging;
mod laws;
mod meeting;
mod moment;
mod outlook;
mod standing;
mod watch;

pub use expecting::expect;
pub use judging::{Difference, Failure, Verdict, judge};
pub use laws::{one_transcript, one_verdict};
pub use meeting::{Meeting, counters_of, ending_of, meet, started_node};
pub use moment::Moment;
pub use standing::{Rule, Standing, phase_rule};
