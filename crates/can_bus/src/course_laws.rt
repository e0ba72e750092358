//! Laws of the course: functions that do nothing and ensure the law.
ghost use Rattle.std.specs.Prelude.{◌≡◌, ◌+◌, ◌<◌, ◌≤◌, ◌⊎◌, ℕ, List, [], length, slice_get, None, Some};
ghost use Rattle.can_frame.specs.Arbitration.{Before, arbitration_field};
ghost use Rattle.can_frame.specs.Parts.{IsFrame};
ghost use Rattle.can_node.specs.Ports.{PortState};
ghost use Rattle.can_terms.specs.declared.hit.Hit.{Hit as Disturbance};
ghost use Rattle.can_bus.specs.declared.offer.Offer.{Offer};
ghost use Rattle.can_bus.specs.Course.{HitInWindows, IsCourse, IsMade, Transmission, course_of, keeping};
ghost use Rattle.can_bus.specs.Schedule.{unhit, schedule, starts_between};
ghost use Rattle.can_bus.specs.CourseWaiting.{AreInTime, IsSentBy, OnWait, attempts_between, going_before, hit_attempts, kept_times, left_on, sent_attempts, ahead_of, busy_times};
ghost use Rattle.can_bus.specs.Offers.{AreOffered};
ghost use Rattle.can_bus.specs.Quiet.{AreDifferent, ascending, busy_time};
ghost use Rattle.can_bus.specs.Repair.{FallInWindows, repaired_course};
ghost use Rattle.can_bus.specs.Shifts.{attempts_later, frames_later};
ghost use Rattle.can_bus.specs.Timed.{AreAtOnce, TimedParts, frames_of, all_offers};

/// Offers and hits have at most one course. It is the computed one, if there each hit falls in the window of the
/// frame of its attempt.
pub fn one_course()
    ensures exists { (hits : List Disturbance) (offers : List TimedParts) → HitInWindows (course_of hits offers) → IsCourse hits 0 0 offers (course_of hits offers) }
    ensures only { (hits : List Disturbance) (offers : List TimedParts) (course : List Transmission) → IsCourse hits 0 0 offers course →
        (course ≡ course_of hits offers) × HitInWindows course }
{}

/// Without hits, and if no two offers have the same arbitration field, the course is the computed schedule.
pub fn a_course_without_hits_is_a_schedule()
    ensures { (offers : List TimedParts) (course : List Transmission) → AreDifferent (frames_of offers) → IsCourse [] 0 0 offers course → course ≡ unhit (schedule offers) }
{}

/// If all frames are offered at time 0, no two with the same arbitration field, the attempts send them in priority
/// order. Each frame has one attempt for each of its hits, and one more.
pub fn a_course_at_once_ascends()
    ensures { (hits : List Disturbance) (offers : List TimedParts) → AreDifferent (frames_of offers) → AreAtOnce offers → FallInWindows (ascending (frames_of offers)) hits →
        (course : List Transmission) → IsCourse hits 0 0 offers course → course ≡ repaired_course (ascending (frames_of offers)) hits }
{}

/// Each frame that is offered to a network is sent by exactly one attempt. It starts when the rest of the attempt on
/// the bus is over, and each attempt that starts in between. Each of these has higher priority, or sends a frame of
/// its arbitration field.
///
/// So a frame waits at most for the rest, for the frames that go before it and are offered before it starts, and for
/// the attempts that are hit in between. An attempt that is hit keeps the bus at most thirteen bit times longer than
/// its frame and intermission. Without hits the terms are those of `waiting_is_bounded`. If no two offers have the
/// same field, only higher-priority frames offered before its start go before it, and for no longer than these take.
pub fn waiting_on_a_network_is_bounded()
    ensures in_time { (offers : List Offer) (ports : List PortState) → AreOffered (length ports) offers → AreInTime (all_offers offers ports) }
    ensures sent { (hits : List Disturbance) (offers : List TimedParts) (course : List Transmission) → IsCourse hits 0 0 offers course →
        (place : ℕ) (offer : TimedParts) → slice_get offers place ≡ Some offer →
        (s : Transmission) × IsSentBy offers course place offer s × ((other : Transmission) → IsSentBy offers course place offer other → other ≡ s) }
    ensures own { OnWait (λ hits offers course place offer s. (s.frame ≡ offer.frame) × (s.hit ≡ None) × (offer.time ≤ s.time)) }
    ensures exact { OnWait (λ hits offers course place offer s.
        s.time ≡ offer.time + left_on offer.time course + kept_times (attempts_between offer.time s.time course)) }
    ensures meanwhile { OnWait (λ hits offers course place offer s. (z : Transmission) → IsMade course z → offer.time ≤ z.time → z.time < s.time →
        Before (arbitration_field z.frame) (arbitration_field offer.frame) ⊎ (arbitration_field z.frame ≡ arbitration_field offer.frame)) }
    ensures bound { OnWait (λ hits offers course place offer s.
        s.time ≤ offer.time + left_on offer.time course + busy_times (going_before offers course place offer s.time) + kept_times (hit_attempts (attempts_between offer.time s.time course))) }
    ensures few { OnWait (λ hits offers course place offer s.
        length (sent_attempts (attempts_between offer.time s.time course)) ≤ length (going_before offers course place offer s.time)) }
    ensures without_hits { (starts : List TimedParts) (from until : ℕ) → kept_times (attempts_between from until (unhit starts)) ≡ busy_times (starts_between from until starts) }
    ensures one_of_a_field { (offers : List TimedParts) (course : List Transmission) (place t : ℕ) (offer : TimedParts) → AreDifferent (frames_of offers) → slice_get offers place ≡ Some offer →
        (busy_times (going_before offers course place offer t) ≤ busy_times (ahead_of offer.frame t offers)) × (length (going_before offers course place offer t) ≤ length (ahead_of offer.frame t offers)) }
    ensures costs { (hits : List Disturbance) (offers : List TimedParts) (course : List Transmission) → IsCourse hits 0 0 offers course →
        (s : Transmission) → IsMade course s → IsFrame s.frame → keeping s.frame s.hit ≤ busy_time s.frame + 13 }
{}

/// A course can be shifted in time. If each frame is offered d bit times later, each attempt starts d bit times
/// later, with the same frame, and the same of its levels is hit.
pub fn a_course_can_be_shifted()
    ensures { (d : ℕ) (hits : List Disturbance) (offers : List TimedParts) (course : List Transmission) → IsCourse hits 0 0 offers course →
        IsCourse hits 0 0 (frames_later d offers) (attempts_later d course) }
{}
