//! Laws of an open bus, to which frames are offered at run time: functions that do nothing and ensure the law.
ghost use Rattle.std.specs.Prelude.{◌≡◌, ◌<◌, ℕ, List, [], length, map};
ghost use Rattle.can_frame.specs.Parts.{Parts};
ghost use Rattle.can_node.specs.Ports.{PortState};
ghost use Rattle.can_bus.specs.declared.offer.Offer.{Offer};
ghost use Rattle.can_bus.specs.Offers.{AreOffered, all_made, played, played_level};
ghost use Rattle.can_bus.specs.OpenBus.{IsOpenCall, IsOpenPlan, WaitsAt, with_first};
ghost use Rattle.can_bus.specs.Plans.{PlannedPort, ready_port};
ghost use Rattle.can_bus.specs.Quiet.{IsQuietCall, line_at, AtEachNode};
ghost use Rattle.can_bus.specs.Run.{BusState, bus_level, bus_run};
ghost use Rattle.can_bus.specs.Timed.{AreAtOnce, TimedParts, frames_of, all_offers, timed, QueuesHaveRoom};
ghost use Rattle.can_bus.specs.Schedule.{schedule, track_at};

/// With all frames offered at time 0, an open bus is a quiet bus at which they all wait. The premises of `play` are
/// those of `run`, and both do the same. The frames of the schedule are the waiting frames in priority order, and its
/// track has their levels. So the clauses of `play` are those of `run`, including the marks in the logs, because what
/// a port has to send is what waits there.
pub fn offers_at_once_are_quiet()
    ensures to_quiet { (offers : List Offer) (ports : List PortState) (starts : List TimedParts) → AreAtOnce (map timed offers) → IsOpenCall offers ports starts →
        IsQuietCall [] (all_made offers 0 ports) (frames_of starts) }
    ensures from_quiet { (offers : List Offer) (ports : List PortState) (frames : List Parts) → AreAtOnce (map timed offers) → AreOffered (length ports) offers → QueuesHaveRoom offers ports →
        IsQuietCall [] (all_made offers 0 ports) frames → IsOpenCall offers ports (schedule (all_offers offers ports)) }
    ensures line { (offers : List Offer) (ports : List PortState) (starts : List TimedParts) → AreAtOnce (map timed offers) → IsOpenCall offers ports starts →
        (t : ℕ) → track_at starts t ≡ line_at (frames_of starts) t }
    ensures queues { (offers : List Offer) (ports : List PortState) → AreAtOnce (map timed offers) → QueuesHaveRoom offers ports →
        AtEachNode (WaitsAt offers) ports (all_made offers 0 ports) }
    ensures bus { (offers : List Offer) (n : ℕ) (bus : BusState) → AreAtOnce (map timed offers) → 0 < n → played offers n bus ≡ bus_run [] n (with_first offers bus) }
    ensures levels { (offers : List Offer) (t : ℕ) (bus : BusState) → AreAtOnce (map timed offers) → played_level offers t bus ≡ bus_level [] t (with_first offers bus) }
{}

/// Idle new ports that are offered frames, as in `a_quiet_bus_can_be_made`, and any offers to them in order, meet the
/// premises of `play`'s theorem. No two frames have the same arbitration field, and each queue and each log has
/// capacity for all frames.
pub fn an_open_bus_can_be_made()
    ensures { (offers : List Offer) (plans : List PlannedPort) → IsOpenPlan offers plans →
        IsOpenCall offers (map ready_port plans) (schedule (all_offers offers (map ready_port plans))) }
{}
