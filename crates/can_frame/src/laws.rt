//! Laws of the definitions. Each is a function with an empty body, whose contract is the law.
ghost use Rattle.std.specs.Prelude.{◌≡◌, ◌≢◌, ◌⊎◌, ◌↔◌, List, ◌++◌, IsTrue};
ghost use Rattle.std.specs.Ordering.{partial_lt};
ghost use Rattle.can_frame.specs.declared.level.Level.{Level};
ghost use Rattle.can_frame.specs.declared.level.Level.TheVariants.{Dominant, Recessive};
ghost use Rattle.can_frame.specs.Parts.{Parts, IsFrame};
ghost use Rattle.can_frame.specs.Arbitration.{arbitration_field, level_cmp, Before};

use crate::key::Key;
use crate::level::Level;
use std::cmp::Ordering;

/// A dominant level is less than a recessive one.
pub fn dominant_is_less()
    ensures order { (a b : Level) → ⟦<Level as Ord>⟧.cmp a b ≡ level_cmp a b }
    ensures less { (a b : Level) → IsTrue (partial_lt ⟦<Level as PartialOrd>⟧.partial_cmp a b)
        ↔ ((a ≡ Dominant) × (b ≡ Recessive)) }
{}

/// The order of arbitration on lists of levels is a strict order, decided at the first level that
/// differs. What follows that level has no influence.
pub fn before_is_an_order()
    ensures differs { (a b : List Level) → Before a b → a ≢ b }
    ensures one_way { (a b : List Level) → Before a b → Before b a → ⊥ }
    ensures transitive { (a b c : List Level) → Before a b → Before b c → Before a c }
    ensures fronts_decide { (a b x y : List Level) → Before a b → Before (a ++ x) (b ++ y) }
{}

/// Of two frames with different arbitration fields, exactly the one with the lesser key has the
/// higher priority. This holds for `cmp` and for `<`.
pub fn lesser_key_goes_first()
    ensures total { (f g : Parts) → Before (arbitration_field f) (arbitration_field g)
        ⊎ ((arbitration_field f ≡ arbitration_field g)
        ⊎ Before (arbitration_field g) (arbitration_field f)) }
    ensures by_cmp { (f g : Parts) →
        (⟦<Key as Ord>⟧.cmp (arbitration_field f) (arbitration_field g) ≡ Ordering.Less)
        ↔ Before (arbitration_field f) (arbitration_field g) }
    ensures by_less { (f g : Parts) →
        IsTrue (partial_lt ⟦<Key as PartialOrd>⟧.partial_cmp (arbitration_field f) (arbitration_field g))
        ↔ Before (arbitration_field f) (arbitration_field g) }
{}

/// No arbitration field is a proper prefix of another.
pub fn no_field_begins_another()
    ensures { (f g : Parts) (x y : List Level) → arbitration_field f ++ x ≡ arbitration_field g ++ y
        → arbitration_field f ≡ arbitration_field g }
{}

/// Two frames have the same arbitration field exactly if they have the same identifier and kind
/// (data or remote).
pub fn field_tells_identifier_and_kind()
    ensures { (f g : Parts) → IsFrame f → IsFrame g
        → (arbitration_field f ≡ arbitration_field g) ↔ ((f.id ≡ g.id) × (f.remote ≡ g.remote)) }
{}
