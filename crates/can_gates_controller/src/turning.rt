//! Bytes in reverse bit order: a word has its lowest bit first, on the bus the highest is sent first.
ghost use Rattle.std.specs.Prelude.{◌≡◌, ◌≤◌, drop};
ghost use Rattle.can_gates_controller.specs.Laying.{turned_bytes};

use can_gates::{FALSE, Literal, literal_at};

/// How many bits the data have.
const PLACES: usize = 64;

/// The bytes of data from this literal on, in each the last literal first.
pub(crate) fn turn_bytes(items: &[Literal], first: usize) -> [Literal; 64]
    requires { first ≤ 39 }
    ensures { result ≡ turned_bytes 8 (drop first items.now) }
{
    let mut all = [FALSE; PLACES];
    for place in 0..PLACES {
        let turned = place / 8 * 8 + (7 - place % 8);
        all[place] = literal_at(items, first + turned);
    }
    all
}
