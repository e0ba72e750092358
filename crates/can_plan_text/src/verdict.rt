//! The analysis of a network.
ghost use Rattle.std.specs.Prelude.{◌≡◌, ◌≤◌, length};

use crate::plan::Planned;
use can_plan::Borne;

/// The analysis of a message. All times are whole bit times.
#[derive(Clone, Copy, Debug)]
pub struct Verdict {
    pub planned: Planned,
    /// How long a lower-priority frame that has started can block a frame of this message at most.
    pub blocking: u16,
    /// The upper bound on the time from a frame's release to the end of its wire, if the analysis finds one.
    pub bound: Option<u64>,
}

impl Verdict {
    ghost use Rattle.can_plan_text.specs.Answers.{is_late as is_late_verdict};

    /// Returns whether a frame may miss its deadline: no bound was found, or one above the deadline.
    pub fn is_late(&self) -> bool
        ensures { result ≡ is_late_verdict self.now }
    {
        match self.bound {
            Some(bound) => bound > u64::from(self.planned.deadline),
            None => true,
        }
    }
}

/// The analysis of a network.
#[derive(Debug, Drop)]
pub struct Analysis {
    /// A verdict for each message, highest priority first.
    pub verdicts: Vec<Verdict>,
    /// For how long the document's error model allows at most fifteen hits, if it has one. So many are tolerated
    /// wherever they fall ([`can_plan::borne_for`]).
    pub borne: Option<Borne>,
    ghost few: { length verdicts.items ≤ 512 },
}

impl Analysis {
    ghost use Rattle.can_plan_text.specs.Answers.{late_in};

    /// Returns how many messages may miss their deadline.
    pub fn late(&self) -> usize
        ensures { result ≡ late_in self.now.verdicts.items }
    {
        self.verdicts
            .iter()
            .filter(|verdict| verdict.is_late())
            .count()
    }
}
