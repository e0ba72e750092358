//! Laws of networks: functions that do nothing and ensure the law.
ghost use Rattle.std.specs.Prelude.{◌≡◌, ◌+◌, ◌<◌, ◌≤◌, ℕ, List, length, map};
ghost use Rattle.can_frame.specs.declared.level.Level.{Level};
ghost use Rattle.can_frame.specs.declared.level.Level.TheVariants.{Recessive};
ghost use Rattle.can_frame.specs.Parts.{Parts};
ghost use Rattle.can_frame.specs.IdleRow.{idle_row};
ghost use Rattle.can_terms.specs.declared.hit.Hit.{Hit as Disturbance};
ghost use Rattle.can_bus.specs.declared.offer.Offer.{Offer};
ghost use Rattle.can_bus.specs.Course.{Transmission};
ghost use Rattle.can_bus.specs.DisturbedPlay.{IsDisturbedPlay, WasPlayed};
ghost use Rattle.can_bus.specs.Attempts.{AreInAttempts, AreApart};
ghost use Rattle.can_bus.specs.Network.{IsNetworkCall, IsNextCall, NetworkLogWhole, NetworkTally, RestsAgain};
ghost use Rattle.can_bus.specs.Offers.{call_after, call_level, call_refused};
ghost use Rattle.can_bus.specs.NetworkPlans.{AllInWindow, AreNoEarlier, IsNetworkPlan, network_course, offered_again, two_ports};
ghost use Rattle.can_bus.specs.Plans.{PlannedPort, ready_port};
ghost use Rattle.can_bus.specs.Quiet.{AtEachNode};
ghost use Rattle.can_bus.specs.Run.{AreLevelsOf, BusState, new_bus};
ghost use Rattle.can_bus.specs.Shifts.{IsBusAtRest, hits_later, offers_later};

/// A call, bit time by bit time, is a disturbed play over whole lists of levels, with any offers and hits. For its
/// recorded levels there are wired levels, and levels that the ports sampled. The recorded levels, the end and the
/// refused offers of every disturbed play are those of the call, and there is exactly one for each number of bit
/// times.
pub fn a_call_is_a_disturbed_play()
    ensures exists { (offers : List Offer) (hits : List Disturbance) (bus : BusState) (recorded : List Level) → bus.rest ≤ idle_row →
        AreLevelsOf (λ t. call_level offers hits t bus) recorded →
        WasPlayed offers hits bus recorded (call_after offers hits (length recorded) bus).bus (call_refused offers hits (length recorded) bus) }
    ensures levels { (offers : List Offer) (hits : List Disturbance) (bus after : BusState) (recorded : List Level) (refused : ℕ) → bus.rest ≤ idle_row →
        WasPlayed offers hits bus recorded after refused → AreLevelsOf (λ t. call_level offers hits t bus) recorded }
    ensures bus { (offers : List Offer) (hits : List Disturbance) (bus after : BusState) (recorded : List Level) (refused : ℕ) → bus.rest ≤ idle_row →
        WasPlayed offers hits bus recorded after refused → after ≡ (call_after offers hits (length recorded) bus).bus }
    ensures refused { (offers : List Offer) (hits : List Disturbance) (bus after : BusState) (recorded : List Level) (refused : ℕ) → bus.rest ≤ idle_row →
        WasPlayed offers hits bus recorded after refused → refused ≡ call_refused offers hits (length recorded) bus }
    ensures one { (offers : List Offer) (hits : List Disturbance) (bus one other : BusState) (wired wires recorded records : List Level) (seen views : List (List Level)) (few many : ℕ) →
        bus.rest ≤ idle_row → IsDisturbedPlay offers hits bus wired recorded seen one few → IsDisturbedPlay offers hits bus wires records views other many → length recorded ≡ length records →
        (recorded ≡ records) × (one ≡ other) × (wired ≡ wires) × (seen ≡ views) × (few ≡ many) }
{}

/// After a call on a network the next call is on a network too. The bus is at rest again after the first, as
/// `Bus::play_disturbed` promises, and the next offers and hits are as required. What is required of the ports
/// follows from their state before the first call, and from its course.
pub fn a_network_call_can_follow()
    ensures { (offers next : List Offer) (hits struck : List Disturbance) (before after : BusState) (course behind : List Transmission) →
        IsNetworkCall offers hits before course → RestsAgain before after →
        AtEachNode (NetworkLogWhole offers course) before.ports after.ports → AtEachNode (NetworkTally offers course) before.ports after.ports →
        IsNextCall offers course before.ports next struck behind → IsNetworkCall next struck after behind }
{}

/// A new bus of idle ports that are offered frames, as in `a_quiet_bus_can_be_made`, with planned offers and hits, is
/// a network. So is a bus with one frame that is offered to its port again and again, at any times in order, with at
/// most fifteen hits, at most one per attempt, anywhere in its window.
pub fn a_network_can_be_made()
    ensures call { (offers : List Offer) (hits : List Disturbance) (plans : List PlannedPort) → IsNetworkPlan offers hits plans →
        IsNetworkCall offers hits (new_bus (map ready_port plans)) (network_course offers hits (map ready_port plans)) }
    ensures comes_back { (f : Parts) (times : List ℕ) (hits : List Disturbance) → AreNoEarlier times → AreInAttempts hits → AreApart 1 hits →
        AllInWindow f hits → length hits ≤ 15 → IsNetworkPlan (offered_again f times) hits (two_ports (length times)) }
{}

/// A call can be shifted in time. On a bus at rest, with each offer and each hit d bit times later, the first d
/// recorded levels are recessive. From then on the recorded levels, the ports and the refused offers are those of the
/// original call.
pub fn a_call_can_be_shifted()
    ensures waits { (d : ℕ) (offers : List Offer) (hits : List Disturbance) (bus : BusState) → IsBusAtRest bus → (t : ℕ) → t < d →
        call_level (offers_later d offers) (hits_later d hits) t bus ≡ Recessive }
    ensures levels { (d : ℕ) (offers : List Offer) (hits : List Disturbance) (bus : BusState) → IsBusAtRest bus → (t : ℕ) →
        call_level (offers_later d offers) (hits_later d hits) (d + t) bus ≡ call_level offers hits t bus }
    ensures bus { (d : ℕ) (offers : List Offer) (hits : List Disturbance) (bus : BusState) → IsBusAtRest bus → (n : ℕ) →
        (call_after (offers_later d offers) (hits_later d hits) (d + n) bus).bus ≡ (call_after offers hits n bus).bus }
    ensures refused { (d : ℕ) (offers : List Offer) (hits : List Disturbance) (bus : BusState) → IsBusAtRest bus → (n : ℕ) →
        call_refused (offers_later d offers) (hits_later d hits) (d + n) bus ≡ call_refused offers hits n bus }
{}
