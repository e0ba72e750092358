//! Reads scenarios: a bus with its ports, the frames that are offered to them, and injected bit errors.
//!
//! [`Scenario::from_text`] reads one from a document; can_trace runs it.
//!
//! | File | What it has | Defined in |
//! |---|---|---|
//! | `scenario.rt` | [`Scenario`], a bus to run, read from a document | `specs/Scenarios.antt` |
//! | `scenario/document.rt` | the document, and its fields at the top level | `specs/Scenarios.antt` |
//! | `scenario/ports.rt` | its ports | `specs/Scenarios.antt` |
//! | `scenario/hits.rt` | its injected bit errors | `specs/Scenarios.antt` |
//! | `scenario/values.rt` | the elements of a queue; the readers of values are those of document_values | `specs/Scenarios.antt` |
//! | `scenario/version.rt` | the versions of the format | |
//! | `laws.rt` | that documents have one reading | `specs/Scenarios.antt` |
//!
//! `toml` makes a table of the text. The requirements on the table are a list of demands, in the order in which they
//! are tested. The contract of each reading step states its part of the list: all are met, or which one is the first
//! that is not. `DemandLemmas` of document_values combines the parts. A relation states which scenario the document
//! then describes.
//!
//! `HitLemmas` has lemmas on the injected bit errors of a document, `ScenarioParts` on a port and a document.
//! `ScenarioRows` has a few documents, and `OneScenario` proves that a document describes at most one scenario.
#![tactic(auto)]

mod laws;
mod scenario;

pub use can_stream::{Field, HitList, PortField};
pub use laws::one_scenario;
pub use scenario::{PortPlan, Scenario, TimedFrame};
