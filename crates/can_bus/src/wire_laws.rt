//! Laws of a `Wire`: functions that do nothing and ensure the law.
ghost use Rattle.std.specs.Prelude.{◌≡◌, ◌≤◌, ◌↔◌, ℕ, List, Some, length, slice_get};
ghost use Rattle.can_frame.specs.declared.level.Level.{Level};
ghost use Rattle.can_frame.specs.IdleRow.{idle_row};
ghost use Rattle.can_terms.specs.declared.hit.Hit.{Hit as Disturbance};
ghost use Rattle.can_bus.specs.declared.offer.Offer.{Offer};
ghost use Rattle.can_bus.specs.DisturbedPlay.{IsDisturbedPlay};
ghost use Rattle.can_bus.specs.Run.{AreLevelsOf, BusState, CallState, bus_step, recorded as recorded_by, wired_level};
ghost use Rattle.can_bus.specs.WireSteps.{AreRecorded, wire_begun, wire_level, wire_of, wire_seen, wire_step, wire_then};

/// In each bit time of a call a bus records the level of a `Wire` that its ports drive, and both stay alike.
pub fn a_bus_has_a_wire()
    ensures level { (hits : List Disturbance) (c : CallState) → recorded_by hits c ≡ wire_level hits (wire_of c) (wired_level c) }
    ensures after { (hits : List Disturbance) (c : CallState) → wire_of (bus_step hits c) ≡ wire_step hits (wire_of c) (wired_level c) }
{}

/// Over whole lists of levels, a `Wire` has the opposite of the driven level exactly when a hit falls on it, whoever
/// drives it. No other levels have this property. So the levels that a disturbed play records, and those that its
/// ports sample, are those of the `Wire` that its ports drive.
pub fn a_wire_is_that_of_a_play()
    ensures recorded { (hits : List Disturbance) (rest : ℕ) (wired recorded : List Level) → rest ≤ idle_row →
        AreRecorded hits rest wired recorded ↔ AreLevelsOf (λ t. wire_then hits wired t (wire_begun rest)) recorded }
    ensures levels { (offers : List Offer) (hits : List Disturbance) (before after : BusState) (wired recorded : List Level) (seen : List (List Level)) (refused : ℕ) →
        before.rest ≤ idle_row → IsDisturbedPlay offers hits before wired recorded seen after refused →
        AreLevelsOf (λ t. wire_then hits wired t (wire_begun before.rest)) recorded }
    ensures views { (offers : List Offer) (hits : List Disturbance) (before after : BusState) (wired recorded : List Level) (seen : List (List Level)) (refused : ℕ) →
        before.rest ≤ idle_row → IsDisturbedPlay offers hits before wired recorded seen after refused →
        (node : ℕ) (levels : List Level) → slice_get seen node ≡ Some levels →
        AreLevelsOf (λ t. wire_seen hits t (wire_then hits wired t (wire_begun before.rest)) node) levels }
{}
