//! Frame texts, traces and scenarios: text in, text out, over any reader and any writer.
//!
//! [`encode_lines`], [`check_lines`] and [`decode_stream`] work on lines of frames, lines of vectors, and traces.
//! `can_texts` explains them, and `can_stream` what bytes are read from and written to, [`Source`] and [`Sink`].
//!
//! A scenario is a bus with its ports, the frames that are offered to them, and injected bit errors.
//! [`Scenario::from_text`] of `can_scenario_text` reads one from a document. [`run_scenario`] runs the bus and writes
//! the report. It allocates all its memory before it writes the first byte.
//!
//! | File | What it has | Defined in |
//! |---|---|---|
//! | `offers.rt` | [`offers_in_time`], the offers of a scenario, in the order in which they are made | `specs/ScenarioOffers.antt` |
//! | `run.rt` | [`run_scenario`]; [`run_to_end`], the run without the report; and its first steps, [`made_port`] and [`offer_all`] | `specs/Report.antt`, `specs/OpenReport.antt`, `specs/QuietReport.antt` |
//! | `report.rt` | the report of a run, written line by line | `specs/Report.antt` |
//! | `port_times.rt` | [`told_times`], the state and actions of one port in each bit time, [`PortTime`]s; [`all_told_times`], those of all | `specs/PortTimes.antt` |
//! | `laws.rt` | that offers have one order, none of them finds a full queue, frames of time 0 are pending at the beginning, and the report of a quiet scenario does not depend on the order in which each port was offered its frames | `specs/ScenarioOffers.antt`, `specs/Report.antt`, `specs/QuietReport.antt` |
//!
//! The times of a port are those of the port alone, simulated from the levels that it saw and the frames that it was
//! offered. `ToldTimes` proves that it does the same as on the bus with the others.
//!
//! The bus is run once: without injected bit errors it is played with the offers, with them it runs with the frames
//! pending. Definitions of other crates can also be named as those of this one, for example
//! `Rattle.can_trace.specs.Coded` (`specs/Lib.antt`).
//!
//! Lemmas on offers: `OfferOrder` (their order), `PlannedOffers` (what each port is offered), `RoomForAll` (no queue
//! is full). Lemmas on reports: `ReportLines` (the lines), `Started` (the beginning of a run, and the levels that it
//! records), `OpenReports` (an open scenario), `QuietReports` (a quiet one), `QuietOrder` (the order within a queue
//! has no influence), `FirstOffers` (frames of time 0 are pending at the beginning).
#![tactic(auto)]

mod laws;
mod offers;
mod port_times;
mod report;
mod run;

pub use can_scenario_text::{
    Field, HitList, PortField, PortPlan, Scenario, TimedFrame, one_scenario,
};
pub use can_stream::{FromRead, Sink, Source, ToWrite, TraceFault, read_whole, write_all};
pub use can_texts::{
    check_lines, decode_stream, encode_lines, one_answer, one_check, one_decoding,
};
pub use laws::{
    frames_of_time_0_wait, no_offer_finds_a_full_queue, offering_order_is_untold,
    one_order_of_offers,
};
pub use offers::offers_in_time;
pub use port_times::{PortTime, all_told_times, told_times};
pub use run::{Ended, made_port, offer_all, run_scenario, run_to_end};
