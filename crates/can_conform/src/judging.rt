//! The judge: whether a transcript agrees with the run of the reference.
ghost use Rattle.std.specs.Prelude.{ℕ, ◌≡◌, ◌≢◌, ◌≤◌, ◌<◌, ◌^◌, ◌-◌, ◌+◌, false, length, IfOk, IfSome, IsNone, IsSome, IsSomeAnd, IsTrue, None, slice_get};
ghost use Rattle.can_conform.specs.Runs.{moment_at};
ghost use Rattle.can_terms.specs.Cases.{AreRising, EndBefore, IsTold};
ghost use Rattle.can_conform.specs.Transcripts.{no_counts, item_at, told_before, AgreesAt};
ghost use Rattle.can_conform.specs.Verdicts.{IsVerdict};
ghost use Rattle.can_conform.specs.Walks.{HasReached, HasWalked, IsDifferenceAt, IsStanding};

use crate::bench::Bench;
use crate::meeting::ending_of;
use crate::moment::Moment;
use crate::standing::Standing;
use crate::watch::{Watch, position_of};
use can_frame::Level;
use can_node::{PackedNode, Port};
use can_terms::{Counters, Ending, Event, Script, Timed, Transcript};
use std::alloc::{AllocError, Global};

/// How a transcript differs from the run of the reference: the actual value, then the expected one.
#[derive(Clone, Copy, Debug)]
pub enum Difference {
    /// A level: the actual one is `None` if there are too few, the expected one if there are too many.
    Level {
        told: Option<Level>,
        ought: Option<Level>,
    },
    /// An event.
    Event {
        told: Option<Event>,
        ought: Option<Event>,
    },
    /// The counters after the bit time.
    Counters {
        told: Counters,
        ought: Counters,
    },
    /// The state and the counters after the last bit time.
    End {
        told: Ending,
        ought: Ending,
    },
}

/// The first difference, its bit time, and the state of the reference before it.
#[derive(Clone, Copy, Debug)]
pub struct Failure {
    pub time: u32,
    pub difference: Difference,
    pub standing: Standing,
}

/// The verdict on a transcript.
#[derive(Clone, Copy, Debug)]
pub enum Verdict {
    /// All that it lists is that of the run of the reference.
    Pass,
    Fail(Failure),
}

/// How far a transcript has been compared: the indices of its next event and its next counters, and the counters that
/// it listed last.
#[derive(Clone, Copy)]
pub(crate) struct Progress {
    pub(crate) event: usize,
    pub(crate) counter: usize,
    pub(crate) held: Counters,
}

/// Compares a transcript with the run of the reference. It returns a pass if all that the transcript lists agrees,
/// otherwise the first difference. The earliest bit time is first; in it a level comes before an event, and an event
/// before counters. The end is last. Nothing after the first difference is judged. It fails only if an allocation
/// fails.
pub fn judge(alloc: Global, script: &Script, transcript: &Transcript) -> Result<Verdict, AllocError>
    requires short { length script.now.tester.items < 2 ^ 32 - 1 }
    requires told { IsTold transcript.now }
    ensures { IfOk result (IsVerdict script.now transcript.now) }
{
    let mut bench = Bench::begin(alloc, script)?;
    let mut watch = Watch::begin(bench.node.access());
    let mut progress = Progress {
        event: 0,
        counter: 0,
        held: Counters::NONE,
    };
    for time in 0..horizon(script, transcript) {
        let position = position_of(bench.node.access());
        let moment = bench.step(script);
        if let Some(difference) = difference_at(transcript, &mut progress, &moment, time) {
            return Ok(Verdict::Fail(Failure {
                time,
                difference,
                standing: watch.standing(position),
            }));
        }
        watch.follow(script, time, position, &moment, bench.node.access());
    }
    Ok(concluded(script, transcript, &bench, &watch))
}

/// The verdict if all bit times agree.
fn concluded(script: &Script, transcript: &Transcript, bench: &Bench, watch: &Watch) -> Verdict
    requires short { length script.now.tester.items < 2 ^ 32 - 1 }
    requires agrees { (t : ℕ) → AgreesAt transcript.now t (moment_at script.now t) }
    requires stands { IsStanding script.now (length script.now.tester.items) (⟦<PackedNode as Port>⟧.port bench.now.node) watch.now.rule watch.now.since }
    ensures { IsVerdict script.now transcript.now result }
{
    let ought = ending_of(&bench.node);
    match transcript.end {
        Some(told) if told != ought => Verdict::Fail(Failure {
            time: script.tester.len() as u32,
            difference: Difference::End { told, ought },
            standing: watch.standing(position_of(bench.node.access())),
        }),
        _ => Verdict::Pass,
    }
}

/// The difference in this bit time, if there is one.
fn difference_at(
    transcript: &Transcript,
    progress: &mut Progress,
    moment: &Moment,
    time: u32,
) -> Option<Difference>
    requires told { IsTold transcript.now }
    requires reached { HasReached transcript.now progress.old time }
    ensures none { IsNone result → AgreesAt transcript.now time moment.now }
    ensures some { IfSome result (IsDifferenceAt transcript.now time moment.now) }
    ensures reached { IsNone result → HasReached transcript.now progress.new (time + 1) }
{
    if is_quiet(transcript, progress, moment, time) {
        return None;
    }
    if let Some(difference) = level_difference(&transcript.drove, moment.drove, time) {
        return Some(difference);
    }
    if let Some(difference) = event_difference(&transcript.events, progress, moment.event, time) {
        return Some(difference);
    }
    counters_difference(&transcript.counters, progress, moment.counters, time)
}

/// Whether this bit time has the expected level and counters, and no event, as most have: no event is listed and none
/// expected, and the counters that were listed last are the expected ones.
fn is_quiet(transcript: &Transcript, progress: &Progress, moment: &Moment, time: u32) -> bool
    requires told { IsTold transcript.now }
    requires reached { HasReached transcript.now progress.now time }
    ensures agrees { IsTrue result → AgreesAt transcript.now time moment.now }
    ensures reached { IsTrue result → HasReached transcript.now progress.now (time + 1) }
{
    if moment.event.is_some() || progress.held != moment.counters {
        return false;
    }
    if comes(&transcript.events, progress.event, time) {
        return false;
    }
    if comes(&transcript.counters, progress.counter, time) {
        return false;
    }
    is_level(&transcript.drove, moment.drove, time)
}

/// Whether the actual level is the expected one.
fn is_level(levels: &[Level], ought: Option<Level>, time: u32) -> bool
    ensures { IsTrue result → slice_get levels.now time ≡ ought }
{
    levels.get(time as usize).copied() == ought
}

/// Whether an element of the list has this time. The elements before `place` are earlier, the others are not.
fn comes<T>(list: &Option<Vec<Timed<T>>>, place: usize, time: u32) -> bool
    requires rising { IfSome list.now (λ list. AreRising list.items) }
    requires reached { IfSome list.now (λ list. HasWalked list.items place time) }
    ensures none { result ≡ false → IfSome list.now (λ list. item_at list.items time ≡ None) }
    ensures reached { result ≡ false → IfSome list.now (λ list. HasWalked list.items place (time + 1)) }
{
    match list {
        Some(list) => is_next(list, place, time),
        None => false,
    }
}

/// Whether the element at this place has this time. The elements before it are earlier, the others are not.
fn is_next<T>(list: &[Timed<T>], place: usize, time: u32) -> bool
    requires rising { AreRising list.now }
    requires reached { HasWalked list.now place time }
    ensures none { result ≡ false → item_at list.now time ≡ None }
    ensures reached { result ≡ false → HasWalked list.now place (time + 1) }
{
    match list.get(place) {
        Some(next) => next.time == time,
        None => false,
    }
}

/// The difference, if the actual level is not the expected one.
fn level_difference(levels: &[Level], ought: Option<Level>, time: u32) -> Option<Difference>
    ensures none { IsNone result → slice_get levels.now time ≡ ought }
    ensures some { IfSome result (λ d. d ≡ Difference.Level (slice_get levels.now time) ought) }
    ensures differs { IsSome result → slice_get levels.now time ≢ ought }
{
    let told = levels.get(time as usize).copied();
    if told == ought {
        return None;
    }
    Some(Difference::Level { told, ought })
}

/// The difference, if events are listed, and this is not the expected one.
fn event_difference(
    events: &Option<Vec<Timed<Event>>>,
    progress: &mut Progress,
    ought: Option<Event>,
    time: u32,
) -> Option<Difference>
    requires rising { IfSome events.now (λ events. AreRising events.items) }
    requires reached { IfSome events.now (λ events. HasWalked events.items progress.old.event time) }
    ensures none { IsNone result → IfSome events.now (λ events. item_at events.items time ≡ ought) }
    ensures some { IfSome result (λ d. IsSomeAnd events.now (λ events. d ≡ Difference.Event (item_at events.items time) ought)) }
    ensures differs { IsSome result → IfSome events.now (λ events. item_at events.items time ≢ ought) }
    ensures reached { IfSome events.now (λ events. HasWalked events.items progress.new.event (time + 1)) }
    ensures counter { progress.new.counter ≡ progress.old.counter }
    ensures held { progress.new.held ≡ progress.old.held }
{
    let Some(events) = events else {
        return None;
    };
    let told = next_at(events, &mut progress.event, time);
    if told == ought {
        return None;
    }
    Some(Difference::Event { told, ought })
}

/// The difference, if counters are listed, and they are not the expected ones.
fn counters_difference(
    counters: &Option<Vec<Timed<Counters>>>,
    progress: &mut Progress,
    ought: Counters,
    time: u32,
) -> Option<Difference>
    requires rising { IfSome counters.now (λ counters. AreRising counters.items) }
    requires reached { IfSome counters.now (λ counters. HasWalked counters.items progress.old.counter time) }
    requires held { IfSome counters.now (λ counters. progress.old.held ≡ told_before no_counts counters.items time) }
    ensures none { IsNone result → IfSome counters.now (λ counters. told_before no_counts counters.items (time + 1) ≡ ought) }
    ensures some { IfSome result (λ d. IsSomeAnd counters.now (λ counters. d ≡ Difference.Counters (told_before no_counts counters.items (time + 1)) ought)) }
    ensures differs { IsSome result → IfSome counters.now (λ counters. told_before no_counts counters.items (time + 1) ≢ ought) }
    ensures reached { IfSome counters.now (λ counters. HasWalked counters.items progress.new.counter (time + 1)) }
    ensures held { IfSome counters.now (λ counters. progress.new.held ≡ told_before no_counts counters.items (time + 1)) }
    ensures event { progress.new.event ≡ progress.old.event }
{
    let Some(counters) = counters else {
        return None;
    };
    let told = counters_told(counters, progress, time);
    if told == ought {
        return None;
    }
    Some(Difference::Counters { told, ought })
}

/// The counters that the transcript lists last, up to and including this bit time.
#[tactic(auto, using(crate::proofs::TimedLemmas::told_before_more))]
fn counters_told(counters: &[Timed<Counters>], progress: &mut Progress, time: u32) -> Counters
    requires rising { AreRising counters.now }
    requires reached { HasWalked counters.now progress.old.counter time }
    requires held { progress.old.held ≡ told_before no_counts counters.now time }
    ensures told { result ≡ told_before no_counts counters.now (time + 1) }
    ensures held { progress.new.held ≡ told_before no_counts counters.now (time + 1) }
    ensures reached { HasWalked counters.now progress.new.counter (time + 1) }
    ensures event { progress.new.event ≡ progress.old.event }
{
    let next = next_at(counters, &mut progress.counter, time);
    let told = next.unwrap_or(progress.held);
    progress.held = told;
    told
}

/// The element of this time, if there is one. The elements before `place` are earlier, the others are not.
fn next_at<T: Copy>(list: &[Timed<T>], place: &mut usize, time: u32) -> Option<T>
    requires rising { AreRising list.now }
    requires reached { HasWalked list.now place.old time }
    ensures told { result ≡ item_at list.now time }
    ensures reached { HasWalked list.now place.new (time + 1) }
{
    match list.get(*place) {
        Some(next) if next.time == time => {
            *place += 1;
            Some(next.told)
        }
        _ => None,
    }
}

/// The first bit time after the case and all that a transcript lists.
fn horizon(script: &Script, transcript: &Transcript) -> u32
    requires told { IsTold transcript.now }
    requires short { length script.now.tester.items < 2 ^ 32 - 1 }
    ensures bits { length script.now.tester.items ≤ result }
    ensures levels { length transcript.now.drove.items ≤ result }
    ensures events { IfSome transcript.now.events (λ events. EndBefore events.items result) }
    ensures counters { IfSome transcript.now.counters (λ counters. EndBefore counters.items result) }
    ensures limit { result ≤ 2 ^ 32 - 1 }
{
    let levels = script.tester.len().max(transcript.drove.len()) as u32;
    let events = end_of_some(&transcript.events);
    let counters = end_of_some(&transcript.counters);
    levels.max(events).max(counters)
}

/// The first time after all of a list, if it is there.
fn end_of_some<T>(list: &Option<Vec<Timed<T>>>) -> u32
    requires rising { IfSome list.now (λ list. AreRising list.items) }
    requires limit { IfSome list.now (λ list. EndBefore list.items (2 ^ 32 - 1)) }
    ensures end { IfSome list.now (λ list. EndBefore list.items result) }
    ensures limit { result ≤ 2 ^ 32 - 1 }
{
    match list {
        Some(list) => end_of_times(list),
        None => 0,
    }
}

/// The first time after all of a list.
fn end_of_times<T>(list: &[Timed<T>]) -> u32
    requires rising { AreRising list.now }
    requires limit { EndBefore list.now (2 ^ 32 - 1) }
    ensures end { EndBefore list.now result }
    ensures limit { result ≤ 2 ^ 32 - 1 }
{
    match list.last() {
        Some(last) => last.time + 1,
        None => 0,
    }
}
