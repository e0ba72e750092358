ghost use Rattle.std.specs.Prelude.{◌≡◌};
ghost use Rattle.can_terms.specs.Cases.{seen_by};

use crate::timed::Timed;
use can_frame::{Frame, Level};

/// The state of the bus before bit time 0.
#[derive(Clone, Copy, Debug, PartialEq, Eq)]
pub enum Start {
    /// The controller has seen at least eleven recessive levels.
    Idle,
    /// The first level that it sees is that of bit time 0.
    Joining,
}

/// What the tester does in a bit time.
#[derive(Clone, Copy, Debug, PartialEq, Eq)]
pub enum TesterLevel {
    /// It drives dominant.
    Dominant,
    /// It drives recessive.
    Recessive,
    /// It drives recessive, and the controller sees recessive, whatever it drives itself.
    Forced,
}

impl TesterLevel {
    /// Returns the level that a controller sees if it drives this one. The bus is dominant if the controller or the
    /// tester drives dominant. In a forced bit time the controller sees recessive.
    pub fn seen_by(self, drives: Level) -> Level
        ensures { result ≡ seen_by self drives }
    {
        match self {
            TesterLevel::Dominant => Level::Dominant,
            TesterLevel::Recessive => drives,
            TesterLevel::Forced => Level::Recessive,
        }
    }
}

/// A case as it is played: what the tester does in each bit time, and the frames and overload requests that the
/// controller gets, each at the beginning of its bit time.
#[derive(Debug, Drop)]
pub struct Script {
    pub start: Start,
    pub tester: Vec<TesterLevel>,
    pub offers: Vec<Timed<Frame>>,
    pub holds: Vec<Timed<u8>>,
}
