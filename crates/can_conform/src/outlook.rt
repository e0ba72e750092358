//! In which bit times of a case frames or requests come: in most there are none.
ghost use Rattle.std.specs.Prelude.{◌≡◌, ◌≤◌, ◌+◌, IsFalse};
ghost use Rattle.can_node.specs.Ports.{PortState};
ghost use Rattle.can_terms.specs.declared.script.Script.{Script};
ghost use Rattle.can_conform.specs.Runs.{handed};
ghost use Rattle.can_conform.specs.Walks.{AreMarked, Foresees, IsMarked, KeepsMarks};

use can_terms::{Script, Timed};

/// For how many bit times one search is valid. Chosen for speed, but its definitions have this number too.
const SIGHT: usize = 256;

/// The last bit time before the first search, so a short case needs none. Chosen only for speed.
const LAST_UNSEEN: u32 = 31;

/// The following bit times in which frames or requests come.
#[derive(Drop)]
pub(crate) struct Outlook {
    /// Whether some may come in a bit time, by its remainder modulo 256.
    pub(crate) marks: [bool; SIGHT],
    /// The last bit time for which the marks are valid.
    pub(crate) last: u32,
}

impl Outlook {
    /// Before bit time 0: some may come in each of the first bit times.
    pub(crate) fn begin() -> Outlook
        ensures { (s : Script) → Foresees s 0 result }
    {
        Outlook {
            marks: [true; SIGHT],
            last: LAST_UNSEEN,
        }
    }

    /// Whether frames or requests may come in this bit time. It searches the lists at most once in 256 bit times.
    pub(crate) fn may_come(&mut self, script: &Script, time: u32) -> bool
        requires { Foresees script.now time self.old }
        ensures foresees { Foresees script.now (time + 1) self.new }
        ensures none { IsFalse result → (p : PortState) → handed script.now time p ≡ p }
    {
        self.reach(script, time);
        self.marks[time as usize % SIGHT]
    }

    /// Searches the lists, if the marks are not valid for this bit time.
    fn reach(&mut self, script: &Script, time: u32)
        requires { Foresees script.now time self.old }
        ensures foresees { Foresees script.now time self.new }
        ensures reaches { time ≤ self.new.last }
    {
        if time > self.last {
            self.look(script, time);
        }
    }

    /// Searches the frames and requests for those from this bit time on.
    fn look(&mut self, script: &Script, time: u32)
        ensures foresees { Foresees script.now time self.new }
        ensures reaches { time ≤ self.new.last }
    {
        self.marks = [false; SIGHT];
        self.last = time.saturating_add(SIGHT as u32 - 1);
        mark_all(&mut self.marks, &script.offers, time, self.last);
        mark_all(&mut self.marks, &script.holds, time, self.last);
    }
}

/// Marks the bit times of these elements, from this one to the last.
fn mark_all<T>(marks: &mut [bool; SIGHT], list: &[Timed<T>], time: u32, last: u32)
    ensures marked { AreMarked list.now time last marks.new }
    ensures kept { KeepsMarks marks.old marks.new }
{
    for one in list {
        mark(marks, one.time, time, last);
    }
}

/// Marks another bit time, if it is from this one to the last.
fn mark(marks: &mut [bool; SIGHT], other: u32, time: u32, last: u32)
    ensures marked { IsMarked other time last marks.new }
    ensures kept { KeepsMarks marks.old marks.new }
{
    if time <= other && other <= last {
        marks[other as usize % SIGHT] = true;
    }
}
