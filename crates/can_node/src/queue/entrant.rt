ghost use Rattle.std.specs.Prelude.{◌≡◌, IsTrue};
ghost use Rattle.std.specs.Ordering.{is_gt};
ghost use Rattle.can_node.specs.Tournament.{earlier_of, entrant_cmp};

use can_frame::Key;

/// A waiting frame in the tournament.
#[derive(Clone, Copy)]
pub struct Entrant {
    /// Its arbitration field.
    pub field: Key,
    /// The place of its slot.
    pub place: usize,
}

/// Of two entrants, the one with the lower arbitration field; of equal fields, the one with the lower place.
#[inline(always)]
pub fn earlier(left: Option<Entrant>, right: Option<Entrant>) -> Option<Entrant>
    ensures { result ≡ earlier_of left right }
{
    match (left, right) {
        (Some(a), Some(b)) => Some(if goes_behind(&a, &b) { b } else { a }),
        (Some(_), None) => left,
        (None, _) => right,
    }
}

/// Whether two entrants are equal.
#[inline(always)]
pub fn is_same(one: &Option<Entrant>, other: &Option<Entrant>) -> bool
    ensures { IsTrue result → one.now ≡ other.now }
{
    match (one, other) {
        (Some(a), Some(b)) => a.place == b.place && a.field == b.field,
        (None, None) => true,
        _ => false,
    }
}

#[inline(always)]
fn goes_behind(entrant: &Entrant, other: &Entrant) -> bool
    ensures { result ≡ is_gt (entrant_cmp entrant.now other.now) }
{
    entrant
        .field
        .cmp(&other.field)
        .then(entrant.place.cmp(&other.place))
        .is_gt()
}
