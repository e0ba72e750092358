//! Scenarios: a bus with its ports, the frames that are offered to them, and injected bit errors.
ghost use Rattle.std.specs.Prelude.{◌≤◌, length};
ghost use Rattle.can_terms.specs.Hits.{AreTaken};
ghost use Rattle.can_scenario_text.specs.ScenarioProps.{AreTaken-prop};

mod document;
pub(crate) mod hits;
mod ports;
mod values;
mod version;

use can_frame::Frame;
use can_stream::TraceFault;
pub use can_stream::{Field, HitList, PortField};
use can_terms::Hit;
use std::alloc::Global;

/// A bus to run: its 1 to 64 ports, the number of bit times, and the injected bit errors in order.
#[derive(Debug, Drop)]
pub struct Scenario {
    pub bits: u32,
    pub ports: Vec<PortPlan>,
    pub hits: Vec<Hit>,
    ghost some: { 1 ≤ length ports.items },
    ghost few: { length ports.items ≤ 64 },
    ghost taken: { AreTaken (length ports.items) hits.items } by { AreTaken-prop (length ports.items) hits.items },
}

/// A frame, and the bit time before which it is offered, counted from 0.
#[derive(Clone, Copy, Debug, PartialEq, Eq)]
pub struct TimedFrame {
    pub time: u64,
    pub frame: Frame,
}

/// A port before the run: the frames that it is offered, in any order of time; the capacity of its log, in
/// entries; whether it begins with bus integration; and how many overload frames it asks for.
#[derive(Debug, Drop)]
pub struct PortPlan {
    pub queue: Vec<TimedFrame>,
    pub log_room: usize,
    pub joins: bool,
    pub overloads: u8,
    ghost asks: { overloads ≤ 2 },
}

impl Scenario {
    ghost use Rattle.std.specs.Prelude.{◌≡◌, IfErr, IfOk, IsErrOf};
    ghost use Rattle.can_stream.specs.declared.field.Field.{Field as Wrong};
    ghost use Rattle.can_scenario_text.specs.Scenarios.{IsFieldOrMemory, IsWrongScenarioField, IsScenarioText};

    /// Returns the scenario that a TOML document describes.
    ///
    /// A document has these fields:
    ///
    /// - `version`: 1 or 2.
    /// - `bits`: 0 to 1000000 bit times.
    /// - `port`: an array of 1 to 64 tables.
    /// - `at`, `in`, `view`: the injected bit errors, each list strictly rising. Only in version 1.
    ///
    /// A port has these fields:
    ///
    /// - `queue`: an array. In version 1 its elements are frame texts, which are offered at time 0. In
    ///   version 2 they are arrays of a time, 0 to 1000000, and a frame text.
    /// - `log`: the capacity of its log, 0 to 65536 entries.
    /// - `join`: a truth value, whether the port begins with bus integration.
    /// - `hold`: 0 to 2, the overload frames that it asks for.
    ///
    /// All fields except `version`, `bits` and `port` are optional. By default an array is empty, `log` is
    /// 64, `join` false and `hold` 0.
    ///
    /// `ScenarioField` is the first wrong field in this order: the document; an unknown field; `version`,
    /// `bits` and `port`; of each port its table, an unknown field, `queue` and its elements, `log`, `join`
    /// and `hold`; then `at`, `in` and `view`, each with its elements. `Memory` means that memory allocation
    /// failed. The scenario owns all memory that it needs.
    pub fn from_text(alloc: Global, text: &[u8]) -> Result<Scenario, TraceFault>
        ensures found { IfOk result (IsScenarioText text.now) }
        ensures wrong { (wrong : Wrong) → IsErrOf result (TraceFault.ScenarioField wrong) → IsWrongScenarioField wrong text.now }
        ensures other { IfErr result IsFieldOrMemory }
    {
        let document = document::parse(alloc, text)?;
        let top = document::read_top(&document)?;
        let ports = ports::read_ports(alloc, top.version, top.ports)?;
        let hits = hits::read_hits(alloc, &document, ports.len())?;
        Ok(Scenario {
            bits: top.bits,
            ports,
            hits,
        })
    }

    /// The number of ports.
    pub fn port_count(&self) -> usize
        ensures { result ≡ length self.now.ports.items }
    {
        self.ports.len()
    }
}
