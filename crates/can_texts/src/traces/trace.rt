//! A trace as it is decoded, level by level.
ghost use Rattle.std.specs.Prelude.{◌≡◌, ◌+◌, ◌^◌, ◌<◌, ◌≤◌, ◌∷◌, ◌++◌, [], length, take, replicate, List, IsTrue};
ghost use Rattle.can_texts.specs.TraceText.{IsTraceText, levels_in};
ghost use Rattle.can_frame.specs.declared.level.Level.{Level as Bit};
ghost use Rattle.can_frame.specs.declared.level.Level.TheVariants.{Dominant, Recessive};
ghost use Rattle.can_texts.specs.declared.traces.finding.Finding.{Finding as Findings};
ghost use Rattle.can_texts.specs.Decoding.{EndsWith, Hearing, Hears, SearchesOn, Stands, told_of};

use crate::traces::finding::Finding;
use crate::traces::searching::{LONGEST_ROW, search};
use can_code::{CodeFaultKind, Decoder, PackedBits};
use can_frame::{IDLE_ROW, Level};

/// The state of a trace.
#[derive(Drop)]
enum State {
    /// Between frames.
    Idle,
    /// In the frame that began at this place.
    InFrame {
        start: u64,
        decoder: Decoder<PackedBits>,
    },
    /// After a fault, with this number of recessive levels in a row.
    Lost {
        row: u8,
    },
}

/// A trace of which some levels have been taken.
#[derive(Drop)]
pub(crate) struct Trace {
    state: State,
    /// The number of levels taken.
    place: u64,
}

impl Trace {
    /// No level has been taken.
    pub(crate) fn begin() -> Trace
        ensures { Hearing result [] [] }
    {
        Trace {
            state: State::Idle,
            place: 0,
        }
    }

    /// Whether the next level is between frames.
    pub(crate) fn is_idle(&self) -> bool
        ensures { IsTrue result → self.now.state ≡ State.Idle }
    {
        matches!(self.state, State::Idle)
    }

    /// Whether the next level is in a frame.
    pub(crate) fn is_in_frame(&self) -> bool {
        matches!(self.state, State::InFrame { .. })
    }

    /// Takes recessive levels between frames.
    pub(crate) fn skip(&mut self, count: usize)
        requires idle { self.old.state ≡ State.Idle }
        requires fits { self.old.place + count < 2 ^ 64 }
        ensures hears { Hears self.old self.new (replicate count Recessive) [] }
        ensures place { self.new.place ≡ self.old.place + count }
    {
        self.place += count as u64;
    }

    /// Takes the level between frames with which a frame begins.
    pub(crate) fn begin_frame(&mut self)
        requires idle { self.old.state ≡ State.Idle }
        requires fits { self.old.place + 1 < 2 ^ 64 }
        ensures hears { Hears self.old self.new (Dominant ∷ []) [] }
        ensures place { self.new.place ≡ self.old.place + 1 }
    {
        self.state = State::InFrame {
            start: self.place,
            decoder: Decoder::begin(),
        };
        self.place += 1;
    }

    /// Takes the next level, and returns the frame or the fault that it completes.
    #[inline(always)]
    pub(crate) fn hear(&mut self, level: Level) -> Option<Finding>
        requires { self.old.place + 1 < 2 ^ 64 }
        ensures hears { Hears self.old self.new (level ∷ []) (told_of result) }
        ensures place { self.new.place ≡ self.old.place + 1 }
    {
        let place = self.place;
        self.place += 1;
        match &mut self.state {
            State::Idle => {
                if !level.is_recessive() {
                    self.state = State::InFrame {
                        start: place,
                        decoder: Decoder::begin(),
                    };
                }
                None
            }
            State::InFrame { start, decoder } => {
                let start = *start;
                match decoder.hear(level) {
                    Ok(None) => None,
                    Ok(Some(heard)) => {
                        self.state = State::Idle;
                        Some(Finding::Frame {
                            place: start,
                            heard,
                        })
                    }
                    Err(kind) => {
                        self.state = searched(0, level);
                        Some(Finding::Fault {
                            place: start,
                            kind,
                            fault_place: place,
                        })
                    }
                }
            }
            State::Lost { row } => {
                self.state = searched(*row, level);
                None
            }
        }
    }

    /// Takes some levels from the front of these digits, within a frame or after a fault, and returns how
    /// many. They complete no frame or fault.
    #[inline(never)]
    pub(crate) fn hear_digits(&mut self, digits: &[u8]) -> usize
        requires { self.old.place + length digits.now < 2 ^ 64 }
        ensures within { result ≤ length digits.now }
        ensures text { IsTraceText (take result digits.now) }
        ensures hears { Hears self.old self.new (levels_in (take result digits.now)) [] }
        ensures place { self.new.place ≡ self.old.place + result }
    {
        let heard = match &mut self.state {
            State::Idle => 0,
            State::InFrame { decoder, .. } => decoder.hear_run(digits),
            State::Lost { row } => {
                let searched = search(digits, *row);
                *row = searched.row;
                searched.taken
            }
        };
        self.place += heard as u64;
        heard
    }

    /// The fault of the frame that is open, if no more levels come.
    pub(crate) fn open_fault(&self) -> Option<Finding>
        ensures { (levels : List Bit) (told : List Findings) → Hearing self.now levels told → EndsWith levels told (told_of result) }
    {
        match &self.state {
            State::InFrame { start, .. } => Some(Finding::Fault {
                place: *start,
                kind: CodeFaultKind::Short,
                fault_place: self.place,
            }),
            State::Idle | State::Lost { .. } => None,
        }
    }
}

/// The state after a fault, `row` recessive levels in a row, and this level.
fn searched(row: u8, level: Level) -> State
    ensures { (done : List Bit) (told : List Findings) → row < IDLE_ROW → let begun = replicate row Recessive ++ level ∷ [] in
        SearchesOn begun done told → Stands result (done ++ begun) told }
{
    if !level.is_recessive() {
        State::Lost { row: 0 }
    } else if row < LONGEST_ROW {
        State::Lost { row: row + 1 }
    } else {
        State::Idle
    }
}
