//! Laws of the schedule: functions that do nothing and ensure the law.
ghost use Rattle.std.specs.Prelude.{◌≡◌, ◌<◌, ◌≤◌, ◌+◌, ◌*◌, ℕ, false, List, length, slice_get, slice_index_or, Some};
ghost use Rattle.std.specs.List.Sorted.{IsPermutation};
ghost use Rattle.can_frame.specs.declared.level.Level.TheVariants.{Recessive};
ghost use Rattle.can_frame.specs.Arbitration.{Before, arbitration_field};
ghost use Rattle.can_frame.specs.Parts.{IsFrame};
ghost use Rattle.can_wire.specs.Wire.{wire};
ghost use Rattle.can_bus.specs.Quiet.{AreDifferent, ascending, line_at, busy_time};
ghost use Rattle.can_bus.specs.Timed.{AreAtOnce, Lists, TimedParts, frames_of};
ghost use Rattle.can_bus.specs.Schedule.{IsScheduleOf, StartsAt, schedule, track_at, FindsFree, left_at, starts_between};
ghost use Rattle.can_bus.specs.CourseWaiting.{ahead_of, busy_times};

/// Offers of which no two have the same arbitration field have exactly one schedule. It starts each frame once, not
/// before it is offered, and not before the frame that started last and its intermission are over.
pub fn one_schedule()
    ensures exists { (offers : List TimedParts) → AreDifferent (frames_of offers) → IsScheduleOf offers (schedule offers) }
    ensures only { (offers starts : List TimedParts) → IsScheduleOf offers starts → starts ≡ schedule offers }
    ensures frames { (offers starts : List TimedParts) → IsScheduleOf offers starts → IsPermutation (frames_of offers) (frames_of starts) }
    ensures offered { (offers starts : List TimedParts) → IsScheduleOf offers starts → (offer start : TimedParts) → StartsAt offers starts offer start → offer.time ≤ start.time }
    ensures one_by_one { (offers starts : List TimedParts) → IsScheduleOf offers starts → (m n : ℕ) (s t : TimedParts) → m < n →
        slice_get starts m ≡ Some s → slice_get starts n ≡ Some t → s.time + busy_time s.frame ≤ t.time }
{}

/// The track of a schedule has each wire from its start on, and is recessive elsewhere.
pub fn a_track_has_each_wire()
    ensures wires { (offers starts : List TimedParts) → IsScheduleOf offers starts → (s : TimedParts) → Lists starts s →
        (k : ℕ) → k < length (wire s.frame) → track_at starts (s.time + k) ≡ slice_index_or (wire s.frame) k Recessive }
    ensures elsewhere { (starts : List TimedParts) (t : ℕ) → ((s : TimedParts) → Lists starts s → s.time ≤ t → s.time + length (wire s.frame) ≤ t) →
        track_at starts t ≡ Recessive }
{}

/// If all frames are offered at time 0, the schedule is that of a quiet bus. Its frames ascend, and its track has
/// their levels.
pub fn offers_at_once_are_ascending()
    ensures frames { (offers : List TimedParts) → AreDifferent (frames_of offers) → AreAtOnce offers → frames_of (schedule offers) ≡ ascending (frames_of offers) }
    ensures line { (offers : List TimedParts) → AreDifferent (frames_of offers) → AreAtOnce offers →
        (t : ℕ) → track_at (schedule offers) t ≡ line_at (ascending (frames_of offers)) t }
{}

/// A frame starts when the rest of the frame on the bus and its intermission are over, and wire and intermission of
/// each frame that starts in between. Each of these has higher priority.
///
/// - So it waits at most for the rest, and for the higher-priority frames that are offered before it starts.
/// - If n frames start in between, it waits at most 159 + 160 n bit times; 134 + 135 n if all identifiers are
///   standard.
/// - It starts at once if the bus is free and each higher-priority frame offered by then has started.
pub fn waiting_is_bounded()
    ensures exact { (offers starts : List TimedParts) → IsScheduleOf offers starts → (offer start : TimedParts) → StartsAt offers starts offer start →
        start.time ≡ offer.time + left_at offer.time starts + busy_times (starts_between offer.time start.time starts) }
    ensures meanwhile { (offers starts : List TimedParts) → IsScheduleOf offers starts → (offer start : TimedParts) → StartsAt offers starts offer start →
        (s : TimedParts) → Lists starts s → offer.time ≤ s.time → s.time < start.time → Before (arbitration_field s.frame) (arbitration_field offer.frame) }
    ensures bound { (offers starts : List TimedParts) → IsScheduleOf offers starts → (offer start : TimedParts) → StartsAt offers starts offer start →
        start.time ≤ offer.time + left_at offer.time starts + busy_times (ahead_of offer.frame start.time offers) }
    ensures few { (offers starts : List TimedParts) → IsScheduleOf offers starts → (offer start : TimedParts) → StartsAt offers starts offer start →
        length (starts_between offer.time start.time starts) ≤ length (ahead_of offer.frame start.time offers) }
    ensures longest { (offers starts : List TimedParts) → IsScheduleOf offers starts → ((x : TimedParts) → Lists offers x → IsFrame x.frame) →
        (offer start : TimedParts) → StartsAt offers starts offer start →
        start.time ≤ offer.time + 159 + 160 * length (starts_between offer.time start.time starts) }
    ensures longest_standard { (offers starts : List TimedParts) → IsScheduleOf offers starts →
        ((x : TimedParts) → Lists offers x → IsFrame x.frame × (x.frame.id.extended ≡ false)) →
        (offer start : TimedParts) → StartsAt offers starts offer start →
        start.time ≤ offer.time + 134 + 135 * length (starts_between offer.time start.time starts) }
    ensures at_once { (offers starts : List TimedParts) → IsScheduleOf offers starts → (offer start : TimedParts) → StartsAt offers starts offer start →
        FindsFree offers starts offer → start.time ≡ offer.time }
{}
