//! Laws: functions that do nothing and ensure the law.
ghost use Rattle.std.specs.Prelude.{ℕ, ◌+◌, ◌≤◌, List};
ghost use Rattle.can_node.specs.Ports.{PortState};
ghost use Rattle.can_bus.specs.declared.offer.Offer.{Offer};
ghost use Rattle.can_bus.specs.Course.{Transmission, hits_made};
ghost use Rattle.can_bus.specs.Network.{AllCountAtMost, CourseIsBorne};
ghost use Rattle.can_bus.specs.Offers.{call_after, call_level};
ghost use Rattle.can_bus.specs.Quiet.{AtEachNode};
ghost use Rattle.can_bus.specs.Timed.{TimedParts};
ghost use Rattle.can_terms.specs.declared.hit.Hit.{Hit as Disturbance};
ghost use Rattle.can_plan.specs.declared.margin.Strain.{Strain};
ghost use Rattle.can_plan.specs.declared.message.HitRate.{HitRate};
ghost use Rattle.can_plan.specs.declared.message.Message.{Message as Sent};
ghost use Rattle.can_plan.specs.Borne.{AreHitBefore};
ghost use Rattle.can_plan.specs.Ends.{EndAlways, EndWithinShifted, IsShiftedCourse};
ghost use Rattle.can_plan.specs.Margins.{EndInTime, MeetDeadlines, messages_under};
ghost use Rattle.can_plan.specs.Messages.{AreHitAtMost, IsMessageSet, Release};
ghost use Rattle.can_plan.specs.OnBus.{LogNames, OnPlannedCall, StandsWithin};

/// A bound that holds on every course holds on every bus. If the run is long enough, the recorded levels have the
/// whole wire of each frame of the message, at most the bound after its release. By then each port's log has the
/// frame. `Bus::play_disturbed` ensures that these are the levels that it records, and the ports that it leaves.
pub fn frames_end_in_time_on_the_bus()
    ensures levels { (most : ℕ → ℕ) (messages : List Sent) (message : Sent) (bound : ℕ) → EndAlways most messages message bound →
        OnPlannedCall most messages message (λ releases place r offers hits bus. StandsWithin bound r (λ t. call_level offers hits t bus)) }
    ensures logs { (most : ℕ → ℕ) (messages : List Sent) (message : Sent) (bound : ℕ) → EndAlways most messages message bound →
        OnPlannedCall most messages message (λ releases place r offers hits bus. (bits : ℕ) → r.released + bound ≤ bits →
        AtEachNode (LogNames offers releases place r) bus.ports (call_after offers hits bits bus).bus.ports) }
{}

/// A bound also holds for frames that were released before the first bit time of the course. The times of all
/// releases are then counted from d bit times before it. Each frame of the message ends at most the bound after its
/// release.
pub fn bounds_hold_for_earlier_releases()
    ensures { (most : ℕ → ℕ) (messages : List Sent) (message : Sent) (bound : ℕ) → EndAlways most messages message bound →
        (d : ℕ) (releases : List Release) (offers : List TimedParts) (hits : List Disturbance) (course : List Transmission) →
        IsShiftedCourse most messages d releases offers hits course → EndWithinShifted d message bound releases offers course }
{}

/// If the analysis gives each deadline as a bound, each frame of each message ends within its deadline on every
/// course. A message set with shorter periods, or under more hits, is still one.
pub fn deadlines_are_kept()
    ensures kept { (rate : HitRate) (limit : ℕ) (messages : List Sent) (deadlines : List ℕ) → IsMessageSet messages →
        MeetDeadlines rate limit messages deadlines → EndInTime rate messages deadlines }
    ensures strained { (strain : Strain) (more : ℕ) (messages : List Sent) → IsMessageSet messages → IsMessageSet (messages_under strain more messages) }
{}

/// With fifteen errors in all, including those counted before, every port stays error active, wherever they fall. If
/// the hits of a course fall within `long` bit times, there are no more than the error model allows in these.
pub fn few_hits_are_borne()
    ensures fifteen { (offers : List Offer) (ports : List PortState) (course : List Transmission) (errors : ℕ) → AllCountAtMost errors ports →
        errors + hits_made course ≤ 15 → CourseIsBorne offers ports course }
    ensures within { (most : ℕ → ℕ) (course : List Transmission) (long : ℕ) → AreHitAtMost most course → AreHitBefore long course → hits_made course ≤ most long }
{}
