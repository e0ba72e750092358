ghost use Rattle.std.specs.Prelude.{◌≡◌, ◌≤◌, length};
ghost use Rattle.can_fault.specs.Words.{state_word};

/// The state of a node, which follows from its error counters. (Bosch CAN 2.0 part B, section 8)
#[derive(Clone, Copy, Debug, PartialEq, Eq)]
pub enum State {
    /// Error active: both counters are at most 127. The node signals errors with active error
    /// flags.
    Active,
    /// Error passive: a counter is at least 128, and TEC is at most 255. The node signals errors
    /// with passive error flags.
    Passive,
    /// Bus off: TEC is at least 256. The node drives only recessive levels.
    BusOff,
}

impl State {
    /// The word for this state: `active`, `passive` or `off`.
    pub fn word(self) -> &'static str
        ensures word { result.now ≡ state_word self }
        ensures short { length result.now ≤ 7 }
    {
        match self {
            State::Active => "active",
            State::Passive => "passive",
            State::BusOff => "off",
        }
    }
}
