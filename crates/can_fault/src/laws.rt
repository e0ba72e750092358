ghost use Rattle.std.specs.Prelude.{◌≡◌, ◌≤◌, ◌↔◌, ℕ, IsTrue, List, [], ◌∷◌, ◌++◌, length, replicate};
ghost use Rattle.can_frame.specs.declared.level.Level.{Level as Bit};
ghost use Rattle.can_frame.specs.declared.level.Level.TheVariants.{Dominant, Recessive};
ghost use Rattle.can_fault.specs.declared.cause.Cause.{Cause as Event};
ghost use Rattle.can_fault.specs.declared.state.State.TheVariants.{BusOff};
ghost use Rattle.can_fault.specs.Counters.{ConfineParts, counted, fresh, IsConfine, state_of};
ghost use Rattle.can_fault.specs.Recovery.{after_levels, ends_bus_off, EndsBusOff, recessive_runs, recovered, StaysBusOff};

/// The invariant of fault confinement holds for a new node, and each cause and each level preserves
/// it.
pub fn confinement_is_kept()
    ensures fresh { IsConfine fresh }
    ensures counted { (cause : Event) (c : ConfineParts) → IsConfine c → IsConfine (counted cause c) }
    ensures recovered { (level : Bit) (c : ConfineParts) → IsConfine c → IsConfine (recovered level c) }
{}

/// The recessive runs of a list are separated by its dominant levels.
pub fn runs_end_at_dominant_levels()
    ensures alone { (n : ℕ) → recessive_runs (replicate n Recessive) ≡ n ∷ [] }
    ensures parted { (n : ℕ) (l : List Bit) → recessive_runs (replicate n Recessive ++ Dominant ∷ l) ≡ n ∷ recessive_runs l }
{}

/// Recovery level by level agrees with recovery over the whole list of levels. A node is bus off
/// until the list ends bus off.
pub fn recovery_goes_level_by_level()
    ensures ends { (c : ConfineParts) (l : List Bit) (x : Bit)
        → IsConfine c → state_of c ≡ BusOff → StaysBusOff c l
        → (IsTrue (ends_bus_off x (after_levels c l)) ↔ EndsBusOff c (l ++ x ∷ [])) }
    ensures cleared { (c : ConfineParts) (l : List Bit) (x : Bit)
        → IsConfine c → state_of c ≡ BusOff → StaysBusOff c l → EndsBusOff c (l ++ x ∷ [])
        → recovered x (after_levels c l) ≡ fresh }
    ensures waiting { (c : ConfineParts) (l : List Bit) (x : Bit)
        → IsConfine c → state_of c ≡ BusOff → StaysBusOff c l → (EndsBusOff c (l ++ x ∷ []) → ⊥)
        → recovered x (after_levels c l) ≡ after_levels c (l ++ x ∷ []) }
{}

/// Bus off lasts for at least 1,408 levels from its beginning. It ends with the last of these if all
/// are recessive.
pub fn bus_off_lasts_1408_levels()
    ensures least { (c : ConfineParts) (l : List Bit) → c.occurrences ≡ 0 → c.row ≡ 0 → EndsBusOff c l → 1408 ≤ length l }
    ensures recessive { (c : ConfineParts) → c.occurrences ≡ 0 → c.row ≡ 0 → EndsBusOff c (replicate 1408 Recessive) }
{}
