//! A bus line, bit time by bit time, for controllers of any kind.
ghost use Rattle.std.specs.Prelude.{◌≡◌, ◌≢◌, ◌<◌, ◌-◌, ◌^◌, IfErr, OnOk, Some, None, length, true};
ghost use Rattle.std.specs.List.{list_any};
ghost use Rattle.can_frame.specs.Levels.{level_code};
ghost use Rattle.can_bus.specs.Run.{hits_view as hits_view_of, hits_wire as hits_wire_of, inverted_if};
ghost use Rattle.can_bus.specs.Walks.{IsPassed};
ghost use Rattle.can_bus.specs.WireSteps.{wire_level, wire_seen, wire_step};
ghost use Rattle.can_c.specs.declared.inputs.PlainHit.{PlainHit as Plain};
ghost use Rattle.can_c.specs.PlainInputs.{first_reason, hit_of_plain, hits_of_plain};
ghost use Rattle.can_c.specs.PlainWires.{have_come as have_come_of, is_wire as is_wire_of, latest_of, struck_refusal, wire_of_plain, wire_status, wired_in};
ghost use Rattle.can_c.specs.Play.{AreCodesOf};
ghost use Rattle.can_c.specs.Statuses.{done, status_code};

use crate::inputs::PlainHit;
use crate::status::Status;
use can_bus::{Attempt, Moment, Wire};
use can_frame::{IDLE_ROW, Level};

/// The state of a bus line between two bit times, as plain fields. With all fields 0, no bit time has passed, and the
/// line counts as recessive for eleven bit times.
#[repr(C)]
#[derive(Clone, Copy, Debug)]
pub struct PlainWire {
    /// How many bit times have passed.
    pub time: u64,
    /// How many transmission attempts have begun.
    pub attempts: u64,
    /// The bit time in which the latest of them began; not read if there is none.
    pub start: u64,
    /// How many recessive levels are missing from eleven in a row, after which a dominant level begins an attempt: 0 to
    /// 11.
    pub until_rest: u8,
}

/// Passes one bit time of a bus line that nodes drive with these levels, with hits: writes the level of the line, and
/// the level that each node samples. The hits may be in any order, and may differ from one call to the next. The call
/// allocates no memory.
#[tactic(auto, using(crate::proofs::StatusLemmas::done_only, crate::proofs::StatusLemmas::not_done))]
#[unsafe(no_mangle)]
pub extern "C" fn can_c_wire(
    wire: &mut PlainWire,
    drives: &[u8],
    hits: &[PlainHit],
    level: &mut u8,
    seen: &mut [u8],
) -> u8
    ensures status { result ≡ status_code (wire_status wire.old drives.now hits.now) }
    ensures after { result ≡ done → wire_of_plain wire.new ≡ wire_step (hits_of_plain hits.now) (wire_of_plain wire.old) (wired_in drives.now) }
    ensures whole { result ≡ done → wire.new.time < 2 ^ 64 - 1 → is_wire_of wire.new ≡ true }
    ensures level { result ≡ done → level.new ≡ level_code (wire_level (hits_of_plain hits.now) (wire_of_plain wire.old) (wired_in drives.now)) }
    ensures seen { result ≡ done → AreCodesOf (wire_seen (hits_of_plain hits.now) wire.old.time (wire_level (hits_of_plain hits.now) (wire_of_plain wire.old) (wired_in drives.now))) seen.new }
    ensures unchanged { result ≢ done → wire.new ≡ wire.old }
    ensures unwritten { result ≢ done → (level.new ≡ level.old) × (seen.new ≡ seen.old) }
{
    if !wire.is_wire() {
        return Status::BadWire.code();
    }
    if !Level::are_codes(drives) {
        return Status::BadLevel.code();
    }
    match check_hits(hits, drives.len()) {
        Err(why) => why.code(),
        Ok(()) => {
            *level = bit_time(wire, wired(drives), hits, seen).code();
            Status::Done.code()
        }
    }
}

/// Passes one bit time of a line with this driven level, returns the level of the line, and writes what each node
/// samples.
fn bit_time(wire: &mut PlainWire, driven: Level, hits: &[PlainHit], seen: &mut [u8]) -> Level
    requires { is_wire_of wire.old ≡ true }
    ensures after { wire_of_plain wire.new ≡ wire_step (hits_of_plain hits.now) (wire_of_plain wire.old) driven }
    ensures whole { wire.new.time < 2 ^ 64 - 1 → is_wire_of wire.new ≡ true }
    ensures level { result ≡ wire_level (hits_of_plain hits.now) (wire_of_plain wire.old) driven }
    ensures seen { AreCodesOf (wire_seen (hits_of_plain hits.now) wire.old.time (wire_level (hits_of_plain hits.now) (wire_of_plain wire.old) driven)) seen.new }
{
    let mut passing = wire.wire();
    let moment = passing.moment(driven);
    let level = passing.pass(driven, falls(hits, &moment));
    *wire = PlainWire::of(&passing);
    tell_each(hits, &moment, level, seen);
    level
}

/// The level that these nodes drive together.
fn wired(drives: &[u8]) -> Level
    ensures { result ≡ wired_in drives.now }
{
    for code in drives {
        if !Level::from_code(*code).is_recessive() {
            return Level::Dominant;
        }
    }
    Level::Recessive
}

/// Checks that each is a hit of a wire that `count` nodes drive; otherwise returns the first reason why one is not.
fn check_hits(hits: &[PlainHit], count: usize) -> Result<(), Status>
    ensures none { OnOk result (first_reason (struck_refusal count) hits.now ≡ None) }
    ensures why { IfErr result (λ why. first_reason (struck_refusal count) hits.now ≡ Some why) }
    ensures named { IfErr result (λ why. why ≢ Status.Done) }
{
    for place in 0..hits.len() {
        hits[place].check(count)?;
    }
    Ok(())
}

/// Whether a hit inverts the level of the line in this bit time.
fn falls(hits: &[PlainHit], moment: &Moment) -> bool
    ensures { result ≡ list_any (λ (hit : Plain). hits_wire_of moment.now.time moment.now.attempt (hit_of_plain hit)) hits.now }
{
    hits.iter().any(|hit| hits_wire(hit, moment))
}

/// Whether this hit does.
fn hits_wire(hit: &PlainHit, moment: &Moment) -> bool
    ensures { result ≡ hits_wire_of moment.now.time moment.now.attempt (hit_of_plain hit.now) }
{
    moment.hits_wire(hit.named())
}

/// Whether a hit inverts the level that the node of this number samples.
fn falls_at(hits: &[PlainHit], moment: &Moment, number: usize) -> bool
    ensures { result ≡ list_any (λ (hit : Plain). hits_view_of moment.now.time number (hit_of_plain hit)) hits.now }
{
    hits.iter().any(|hit| hits_view(hit, moment, number))
}

/// Whether this hit does.
fn hits_view(hit: &PlainHit, moment: &Moment, number: usize) -> bool
    ensures { result ≡ hits_view_of moment.now.time number (hit_of_plain hit.now) }
{
    moment.hits_view(number, hit.named())
}

/// Writes the level that each node samples.
fn tell_each(hits: &[PlainHit], moment: &Moment, level: Level, seen: &mut [u8])
    ensures { AreCodesOf (wire_seen (hits_of_plain hits.now) moment.now.time level) seen.new }
{
    for number in 0..seen.len() {
        seen[number] = told(falls_at(hits, moment, number), level);
    }
}

/// The number of the level, or of its inverse if it is hit.
fn told(hit: bool, level: Level) -> u8
    ensures { result ≡ level_code (inverted_if hit level) }
{
    if hit {
        level.opposite().code()
    } else {
        level.code()
    }
}

impl PlainWire {
    /// Whether these fields are a wire that can pass one more bit time.
    fn is_wire(&self) -> bool
        ensures { result ≡ is_wire_of self.now }
    {
        self.until_rest <= IDLE_ROW
            && self.time < u64::MAX
            && have_come(self.attempts, self.start, self.time)
    }

    /// The wire of these fields.
    fn wire(&self) -> Wire
        requires { is_wire_of self.now ≡ true }
        ensures { result ≡ wire_of_plain self.now }
    {
        let latest = latest(self.attempts, self.start, self.time);
        match Wire::at(IDLE_ROW - self.until_rest, self.time, latest) {
            Some(wire) => wire,
            None => unreachable!(),
        }
    }

    /// The plain fields of a wire.
    fn of(wire: &Wire) -> PlainWire
        ensures wire { wire_of_plain result ≡ wire.now }
        ensures whole { result.time < 2 ^ 64 - 1 → is_wire_of result ≡ true }
    {
        let (attempts, start) = counted(wire.latest(), wire.time());
        PlainWire {
            time: wire.time(),
            attempts,
            start,
            until_rest: IDLE_ROW - wire.rest(),
        }
    }
}

/// Whether `attempts` attempts can have begun before bit time `time`, the latest of them in bit time `start`.
fn have_come(attempts: u64, start: u64, time: u64) -> bool
    ensures { result ≡ have_come_of attempts start time }
{
    attempts == 0 || (start < time && attempts - 1 <= start)
}

/// The latest of these attempts, if there is one.
fn latest(attempts: u64, start: u64, time: u64) -> Option<Attempt>
    requires { have_come_of attempts start time ≡ true }
    ensures latest { result ≡ latest_of attempts start time }
    ensures passed { IsPassed result time }
{
    if attempts == 0 {
        return None;
    }
    Some(Attempt {
        number: attempts - 1,
        offset: time - start - 1,
    })
}

/// How many attempts have begun, and when the latest of them did.
fn counted(latest: Option<Attempt>, time: u64) -> (u64, u64)
    requires { IsPassed latest time }
    ensures latest { latest_of result.0 result.1 time ≡ latest }
    ensures come { have_come_of result.0 result.1 time ≡ true }
{
    match latest {
        None => (0, 0),
        Some(Attempt { number, offset }) => (number + 1, time - offset - 1),
    }
}
