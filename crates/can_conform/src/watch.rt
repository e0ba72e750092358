//! The rule that decides in each bit time of a case, and the last event before it.
ghost use Rattle.std.specs.Prelude.{◌≡◌, ◌+◌, None};
ghost use Rattle.can_conform.specs.Runs.{before, last_event as last_event_of, moment_at, rule_before, since_before};
ghost use Rattle.can_conform.specs.Standings.{phase_rule as phase_rule_of};
ghost use Rattle.can_mac.specs.State.{is_sender, kind_of, place_of};

use crate::moment::Moment;
use crate::standing::{Rule, Standing, phase_rule, rule_after};
use can_code::FrameBits;
use can_frame::Level;
use can_mac::MediumAccess;
use can_terms::{Event, PhaseKind, Script, Timed};

/// The phase of a controller, its place in it, and its role. Verdicts have them as they are before the bit time.
#[derive(Clone, Copy)]
pub(crate) struct Position {
    phase: PhaseKind,
    place: u8,
    is_sender: bool,
}

/// The position of a controller.
pub(crate) fn position_of<B: FrameBits>(access: &MediumAccess<B>) -> Position
    ensures phase { result.phase ≡ kind_of access.now }
    ensures place { result.place ≡ place_of access.now }
    ensures role { result.is_sender ≡ is_sender access.now.role }
{
    Position {
        phase: access.phase().kind(),
        place: access.place(),
        is_sender: access.role().is_sender(),
    }
}

/// The rule that decides in a bit time, and the last event before it.
#[derive(Clone, Copy)]
pub(crate) struct Watch {
    pub(crate) rule: Rule,
    pub(crate) since: Option<Timed<Event>>,
}

impl Watch {
    /// The watch before the first bit time of a controller with this medium access control.
    pub(crate) fn begin<B: FrameBits>(access: &MediumAccess<B>) -> Watch
        ensures rule { result.rule ≡ phase_rule_of access.now.phase access.now.role }
        ensures since { result.since ≡ None }
    {
        Watch {
            rule: phase_rule(access.phase(), access.role()),
            since: None,
        }
    }

    /// Follows a bit time of the case: the reference had this position before, did `moment` in it, and is in
    /// state `next` after it.
    pub(crate) fn follow<B: FrameBits>(
        &mut self,
        script: &Script,
        time: u32,
        position: Position,
        moment: &Moment,
        next: &MediumAccess<B>,
    )
        requires position { position.phase ≡ kind_of (before script.now time).mac }
        requires moment { moment.now ≡ moment_at script.now time }
        requires next { next.now ≡ (before script.now (time + 1)).mac }
        requires rule { self.old.rule ≡ rule_before script.now time }
        requires since { self.old.since ≡ since_before script.now time }
        ensures rule { self.new.rule ≡ rule_before script.now (time + 1) }
        ensures since { self.new.since ≡ since_before script.now (time + 1) }
    {
        let Some(tester) = script.tester.get(time as usize) else {
            return;
        };
        let seen = tester.seen_by(moment.drove.unwrap_or(Level::Recessive));
        self.rule = rule_after(&moment.event, position.phase, seen, next);
        note_event(&mut self.since, &moment.event, time);
    }

    /// The state of the reference, given its position.
    pub(crate) fn standing(&self, position: Position) -> Standing
        ensures phase { result.phase ≡ position.phase }
        ensures place { result.place ≡ position.place }
        ensures role { result.is_sender ≡ position.is_sender }
        ensures rule { result.rule ≡ self.now.rule }
        ensures since { result.since ≡ self.now.since }
    {
        Standing {
            phase: position.phase,
            place: position.place,
            is_sender: position.is_sender,
            rule: self.rule,
            since: self.since,
        }
    }
}

/// Keeps an event as the last one, if there is one.
fn note_event(since: &mut Option<Timed<Event>>, event: &Option<Event>, time: u32)
    ensures { since.new ≡ last_event_of event.now time since.old }
{
    let Some(told) = event else {
        return;
    };
    *since = Some(Timed { time, told: *told });
}
