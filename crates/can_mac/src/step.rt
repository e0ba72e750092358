//! One level at a controller that is not bus off: the transition, what it counts, and the next state. (Bosch CAN 2.0
//! part B, sections 3.2, 7 and 8)

ghost use Rattle.std.specs.Prelude.{◌≡◌, IfSome, IsNone, None, Some, false};
ghost use Rattle.std.specs.Option.{option_copied};
ghost use Rattle.can_fault.specs.Counters.{counted, is_bus_off, is_passive as is_passive_by};
ghost use Rattle.can_mac.specs.Machine.{on_step, stance as stance_of, step_counting};
ghost use Rattle.can_mac.specs.Moves.{move, move_keeping};
ghost use Rattle.can_mac.specs.State.{IsFrameOrNone, IsMac, MacState, is_off_phase};

use crate::moves::shortcuts::move_in_place;
use crate::moves::{Hearing, Move, Stance, enter, next_move};
use crate::phase::{Overloads, Phase, Role};
use can_code::{FrameBits, Front};
use can_fault::{Cause, Confine, State};
use can_frame::{Frame, Level};
use can_terms::Event;

/// Makes a transition of a frame without errors in place, and returns its event. On any other level it returns
/// `None`, and nothing changes.
#[inline(always)]
pub(crate) fn make_in_place<B: FrameBits>(
    phase: &mut Phase<Front<B>>,
    role: &mut Role,
    overloads: &mut Overloads,
    confine: &mut Confine,
    waiting: Option<&Frame>,
    seen: Level,
) -> Option<Option<Event>>
    requires mac { IsMac (record { phase = phase.old; role = role.old; overloads = overloads.old; counters = confine.old }) }
    requires on_bus { is_off_phase phase.old ≡ false }
    requires waiting { IsFrameOrNone (option_copied waiting) }
    ensures state { IfSome result (λ event. let m : MacState = record { phase = phase.old; role = role.old; overloads = overloads.old; counters = confine.old } in
        record { phase = phase.new; role = role.new; overloads = overloads.new; counters = confine.new } ≡ (on_step m (move (stance_of m) m.phase (option_copied waiting.entry) seen)).0) }
    ensures event { IfSome result (λ event. let m : MacState = record { phase = phase.old; role = role.old; overloads = overloads.old; counters = confine.old } in
        event ≡ (on_step m (move (stance_of m) m.phase (option_copied waiting.entry) seen)).1) }
    ensures kept { IsMac (record { phase = phase.new; role = role.new; overloads = overloads.new; counters = confine.new }) }
    ensures same_phase { IsNone result → phase.new ≡ phase.old }
    ensures same_role { IsNone result → role.new ≡ role.old }
    ensures same_overloads { IsNone result → overloads.new ≡ overloads.old }
    ensures same_counters { IsNone result → confine.new ≡ confine.old }
{
    let passive = is_passive(confine);
    let outcome = move_in_place(passive, phase, role, overloads, waiting, seen);
    let Some(outcome) = outcome else {
        return None;
    };
    let made = Move {
        phase: None,
        role: *role,
        overloads: *overloads,
        cause: outcome.cause,
        event: outcome.event,
    };
    Some(land(phase, role, confine, made))
}

/// Makes any transition, and returns its event. It is not inlined: few levels reach it.
#[inline(never)]
pub(crate) fn make_move<B: FrameBits>(
    phase: &mut Phase<Front<B>>,
    role: &mut Role,
    overloads: &mut Overloads,
    confine: &mut Confine,
    waiting: Option<&Frame>,
    seen: Level,
) -> Option<Event>
    requires mac { IsMac (record { phase = phase.old; role = role.old; overloads = overloads.old; counters = confine.old }) }
    requires on_bus { is_off_phase phase.old ≡ false }
    requires waiting { IsFrameOrNone (option_copied waiting) }
    ensures state { let m : MacState = record { phase = phase.old; role = role.old; overloads = overloads.old; counters = confine.old } in
        record { phase = phase.new; role = role.new; overloads = overloads.new; counters = confine.new } ≡ (on_step m (move (stance_of m) m.phase (option_copied waiting.entry) seen)).0 }
    ensures event { let m : MacState = record { phase = phase.old; role = role.old; overloads = overloads.old; counters = confine.old } in
        result ≡ (on_step m (move (stance_of m) m.phase (option_copied waiting.entry) seen)).1 }
    ensures kept { IsMac (record { phase = phase.new; role = role.new; overloads = overloads.new; counters = confine.new }) }
{
    let stance = Stance {
        passive: is_passive(confine),
        role: *role,
        overloads: *overloads,
    };
    let made = next_move(&stance, phase, waiting, seen);
    *overloads = made.overloads;
    land(phase, role, confine, made)
}

/// Enters the next phase of a transition, and returns the event. If its cause makes the controller bus off, that is
/// the event instead.
#[inline(always)]
fn land<B: FrameBits>(
    phase: &mut Phase<Front<B>>,
    role: &mut Role,
    confine: &mut Confine,
    made: Hearing,
) -> Option<Event>
    ensures state { record { phase = phase.new; role = role.new; overloads = made.overloads; counters = confine.new } ≡ (step_counting (move_keeping phase.old made) confine.old made.cause).0 }
    ensures event { result ≡ (step_counting (move_keeping phase.old made) confine.old made.cause).1 }
{
    if count(confine, made.cause) {
        *phase = Phase::BusOff;
        *role = Role::Receiver;
        return Some(Event::WentOff);
    }
    enter(phase, made.phase);
    *role = made.role;
    made.event
}

/// Whether the controller is error passive.
#[tactic(auto, using(crate::proofs::Landing::active_told, crate::proofs::Landing::passive_told, crate::proofs::Landing::off_told))]
pub(crate) fn is_passive(confine: &Confine) -> bool
    ensures { result ≡ is_passive_by confine.now }
{
    match confine.state() {
        State::Active => false,
        State::Passive | State::BusOff => true,
    }
}

/// Counts the cause of a transition, if there is one. Returns whether this makes the controller bus off.
fn count(confine: &mut Confine, cause: Option<Cause>) -> bool
    ensures none { cause ≡ None → (confine.new ≡ confine.old) × (result ≡ false) }
    ensures some { (c : Cause) → cause ≡ Some c → (confine.new ≡ counted c confine.old) × (result ≡ is_bus_off confine.new) }
{
    let Some(cause) = cause else {
        return false;
    };
    confine.apply(cause);
    confine.state() == State::BusOff
}
