//! Laws of the definitions: functions that do nothing and ensure the law.
ghost use Rattle.std.specs.Prelude.{◌≡◌, ◌<◌, ◌≤◌, ◌+◌, ◌-◌, ◌↔◌, ◌⊎◌, ℕ, suc, true, List, [], drop, length, map, take, None};
ghost use Rattle.std.specs.Ordering.{partial_lt};
ghost use Rattle.std.specs.List.{zip};
ghost use Rattle.std.specs.List.Sorted.{IsPermutation};
ghost use Rattle.can_frame.specs.declared.level.Level.{Level};
ghost use Rattle.can_frame.specs.Parts.{IsFrame, Parts};
ghost use Rattle.can_frame.specs.IdleRow.{idle_row};
ghost use Rattle.can_code.specs.declared.fault.CodeFault.{CodeFault as Fault};
ghost use Rattle.can_code.specs.CodeFaults.{IsCodeFault};
ghost use Rattle.can_code.specs.Front.{first_front, heard_levels};
ghost use Rattle.can_wire.specs.Stuffing.{is_stuff_place};
ghost use Rattle.can_wire.specs.Wire.{stuffed_part, wire};
ghost use Rattle.can_node.specs.Ports.{IsPort, PortState, port_run};
ghost use Rattle.can_terms.specs.declared.hit.Hit.{Hit as Disturbance};
ghost use Rattle.can_bus.specs.Agreement.{AreAlike, LogsAgree};
ghost use Rattle.can_bus.specs.DisturbedPlay.{IsDisturbedRun, WasDisturbed, all_given, played_then};
ghost use Rattle.can_terms.specs.Hits.{AreTaken, is_above};
ghost use Rattle.can_bus.specs.Offers.{all_made, played, played_level};
ghost use Rattle.can_bus.specs.declared.offer.Offer.{Offer as Asked};
ghost use Rattle.can_bus.specs.Plans.{FitsQueue, IsQuietPlan, PlannedPort, planned, ready_port};
ghost use Rattle.can_bus.specs.Quiet.{AreDifferent, IsAscending, IsQuiet, IsQuietCall, ascending, line_at, queued, span};
ghost use Rattle.can_bus.specs.Attempts.{AreApart, IsInWindow};
ghost use Rattle.can_bus.specs.Repair.{AreBorne, AreOfOnePort, FallInWindows, IsRepairedCall, repaired_span, tally, repaired_line_at};
ghost use Rattle.can_bus.specs.RepairedLine.{lateness, refused_place, struck};
ghost use Rattle.can_bus.specs.Run.{AreLevelsOf, BusState, bus_level, bus_run, new_bus};

use can_terms::Hit;

/// One hit is below another, by `<`, exactly if the other is above it.
pub fn hits_are_ordered()
    ensures { (a b : Disturbance) → partial_lt ⟦<Hit as PartialOrd>⟧.partial_cmp a b ≡ is_above b a }
{}

/// A run, bit time by bit time, is a disturbed run over whole lists of levels, with any hits. For its recorded levels
/// there are wired levels, and levels that the ports sampled. The recorded levels and the end of every disturbed run
/// are those of the run, and there is exactly one for each number of bit times. Without offers, the state of each
/// port follows from the levels that it sampled.
pub fn a_run_is_a_disturbed_run()
    ensures exists { (hits : List Disturbance) (bus : BusState) (recorded : List Level) → bus.rest ≤ idle_row →
        AreLevelsOf (λ t. bus_level hits t bus) recorded →
        WasDisturbed hits bus recorded (bus_run hits (length recorded) bus) }
    ensures levels { (hits : List Disturbance) (bus after : BusState) (recorded : List Level) → bus.rest ≤ idle_row → WasDisturbed hits bus recorded after →
        AreLevelsOf (λ t. bus_level hits t bus) recorded }
    ensures bus { (hits : List Disturbance) (bus after : BusState) (recorded : List Level) → bus.rest ≤ idle_row → WasDisturbed hits bus recorded after →
        after ≡ bus_run hits (length recorded) bus }
    ensures one { (hits : List Disturbance) (bus one other : BusState) (wired wires recorded records : List Level) (seen views : List (List Level)) → bus.rest ≤ idle_row →
        IsDisturbedRun hits bus wired recorded seen one → IsDisturbedRun hits bus wires records views other → length recorded ≡ length records →
        (recorded ≡ records) × (one ≡ other) × (wired ≡ wires) × (seen ≡ views) }
    ensures ports { (t node : ℕ) (ports : List PortState) (seen : List (List Level)) → (all_given [] t node ports ≡ ports)
        × (played_then [] t node ports seen ≡ map (λ (beside : PortState × List Level). port_run beside.0 (take t beside.1)) (zip ports seen)) }
{}

/// Without hits, two runs are one run of the same total number of bit times.
pub fn runs_join()
    ensures bus { (m n : ℕ) (bus : BusState) → bus_run [] (m + n) bus ≡ bus_run [] n (bus_run [] m bus) }
    ensures levels { (m t : ℕ) (bus : BusState) → bus_level [] (m + t) bus ≡ bus_level [] t (bus_run [] m bus) }
{}

/// Without offers, a bus that is played is a run without hits. With offers, it is a sequence of runs of one bit time,
/// before each of which its offers are made.
pub fn a_run_without_offers_is_a_run()
    ensures bus { (n : ℕ) (bus : BusState) → played [] n bus ≡ bus_run [] n bus }
    ensures levels { (t : ℕ) (bus : BusState) → played_level [] t bus ≡ bus_level [] t bus }
    ensures next { (offers : List Asked) (n : ℕ) (bus : BusState) →
        played offers (suc n) bus ≡ bus_run [] 1 (record (played offers n bus) { ports = all_made offers n (played offers n bus).ports }) }
    ensures next_level { (offers : List Asked) (t : ℕ) (bus : BusState) →
        played_level offers t bus ≡ bus_level [] 0 (record (played offers t bus) { ports = all_made offers t (played offers t bus).ports }) }
{}

/// Frames of which no two have the same arbitration field have exactly one ascending list, whatever their order.
pub fn one_ascending_list()
    ensures exists { (waiting : List Parts) → AreDifferent waiting → IsAscending waiting (ascending waiting) }
    ensures only { (waiting frames : List Parts) → IsAscending waiting frames → frames ≡ ascending waiting }
    ensures in_any_order { (v w : List Parts) → IsPermutation v w → AreDifferent v → ascending v ≡ ascending w }
{}

/// Two quiet buses with the same frames have the same level at every time. Once each has run for the span of the
/// frames, all logs of both list the same frames in the same order.
pub fn quiet_buses_agree()
    ensures levels { (one other : BusState) → AreAlike one other → (t : ℕ) → bus_level [] t one ≡ bus_level [] t other }
    ensures span { (one other : BusState) → AreAlike one other → span (queued one.ports) ≡ span (queued other.ports) }
    ensures logs { (one other : BusState) → AreAlike one other → (m n : ℕ) → span (queued one.ports) ≤ m → span (queued other.ports) ≤ n →
        LogsAgree (bus_run [] m one) (bus_run [] n other) }
{}

/// Idle new ports, two to 64, that are offered their frames one after another make a quiet bus. Each log has capacity
/// for all frames, and no two frames have the same arbitration field. The waiting frames are those that were offered.
pub fn a_quiet_bus_can_be_made()
    ensures quiet { (plans : List PlannedPort) → IsQuietPlan plans → IsQuiet (map ready_port plans) }
    ensures queued { (plans : List PlannedPort) → queued (map ready_port plans) ≡ planned plans }
    ensures ports { (plan : PlannedPort) → FitsQueue plan → IsPort (ready_port plan) }
{}

/// With at most fifteen hits every port stays error active, wherever they fall.
pub fn fifteen_hits_are_borne()
    ensures { (frames : List Parts) (hits : List Disturbance) (ports : List PortState) → length hits ≤ 15 → AreBorne frames hits ports }
{}

/// With one hit in any nine attempts every port stays error active, however many hits there are, if one port sends
/// all frames. The eight attempts between two hits take back what a hit has counted.
pub fn one_hit_in_nine_is_borne()
    ensures { (frames : List Parts) (hits : List Disturbance) (ports : List PortState) → FallInWindows frames hits → AreApart 9 hits →
        AreOfOnePort frames ports → AreBorne frames hits ports }
{}

/// A repaired call without hits is a quiet call on a bus at rest. It takes the span of the quiet call, and its tally
/// is 0.
pub fn a_call_without_hits_is_quiet()
    ensures quiet { (bus : BusState) (frames : List Parts) → IsRepairedCall [] bus frames → IsQuietCall [] bus.ports frames × (bus.rest ≡ idle_row) }
    ensures repaired { (bus : BusState) (frames : List Parts) → IsQuietCall [] bus.ports frames → bus.rest ≡ idle_row → IsRepairedCall [] bus frames }
    ensures span { (frames : List Parts) → repaired_span frames [] ≡ span frames }
    ensures tally { (queue frames : List Parts) → ((tally queue frames []).tec ≡ 0) × ((tally queue frames []).rec ≡ 0) }
{}

/// A new bus of the ports of `a_quiet_bus_can_be_made` can have a repaired call. The hits are in order and in the
/// windows of different attempts, and there are at most fifteen, or all ports stay error active. Such hits are
/// accepted. No window is empty: it has the last but one level of the end of frame.
pub fn a_repaired_call_can_be_made()
    ensures call { (plans : List PlannedPort) (hits : List Disturbance) → IsQuietPlan plans → FallInWindows (ascending (planned plans)) hits → AreApart 1 hits →
        (length hits ≤ 15) ⊎ AreBorne (ascending (planned plans)) hits (map ready_port plans) →
        IsRepairedCall hits (new_bus (map ready_port plans)) (ascending (planned plans)) }
    ensures taken { (ports : ℕ) (frames : List Parts) (hits : List Disturbance) → FallInWindows frames hits → AreApart 1 hits → AreTaken ports hits }
    ensures window { (f : Parts) → IsInWindow f (length (wire f) - 2) }
{}

/// After a hit the receivers' error comes at most six bit times after the transmitter's. They are at once exactly if
/// a stuff bit is hit, or a level after the stuffed part.
///
/// A receiver detects an error within the dominant levels that follow the hit exactly if they are at least as many as
/// these bit times. A decoder of the levels has its fault at the level that is refused. If that fault is a wrong CRC
/// sequence, with which the stuffed part ends, it is at the level before.
pub fn receivers_err_soon()
    ensures few { (f : Parts) (offset : ℕ) → lateness f offset ≤ 6 }
    ensures at_once { (f : Parts) (offset : ℕ) → IsFrame f → 0 < offset →
        (lateness f offset ≡ 0) ↔ ((is_stuff_place (stuffed_part f) offset ≡ true) ⊎ (length (stuffed_part f) ≤ offset)) }
    ensures refused { (f : Parts) (offset dominant : ℕ) → IsFrame f → 0 < offset →
        (heard_levels first_front (drop 1 (struck f offset dominant)) ≡ None) ↔ (lateness f offset ≤ dominant) }
    ensures fault { (f : Parts) (offset : ℕ) → IsFrame f → 0 < offset → offset ≤ length (stuffed_part f) →
        (fault : Fault) × (IsCodeFault (struck f offset 7) fault × (refused_place fault.kind fault.place ≡ offset + lateness f offset)) }
{}

/// Without hits the levels of a disturbed bus are those of a quiet one.
pub fn no_hit_leaves_a_quiet_line()
    ensures { (frames : List Parts) (t : ℕ) → repaired_line_at frames [] t ≡ line_at frames t }
{}
