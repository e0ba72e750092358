//! Choices among wires: one of two, the first row of a list, the ones at an index.
ghost use Rattle.std.specs.Prelude.{◌≡◌, ◌^◌, ◌≤◌, ℕ, Bool, if◌then◌else◌, length, slice_index_or};
ghost use Rattle.can_gates.specs.Circuit.{value, Makes};
ghost use Rattle.can_gates.specs.Words.{number};
ghost use Rattle.can_gates_mac.specs.Shown.{shown, listed};

use crate::nibble::Nibble;
use crate::wires::{Row, Wires};
use can_gates::{Circuit, Literal};

/// The first wires if the test is true, otherwise the second.
pub(crate) fn choose_wires(circuit: &mut Circuit, test: Literal, a: Wires, b: Wires) -> Wires
    ensures { Makes circuit.old circuit.new (λ v. shown v result ≡ (if value v test then shown v a else shown v b)) }
{
    let phase = Nibble::choose(circuit, test, a.phase, b.phase);
    let place = Nibble::choose(circuit, test, a.place, b.place);
    let last = circuit.ite(test, a.last, b.last);
    let unacknowledged = circuit.ite(test, a.unacknowledged, b.unacknowledged);
    let first = circuit.ite(test, a.first, b.first);
    let sender = circuit.ite(test, a.sender, b.sender);
    let pending = Nibble::choose(circuit, test, a.pending, b.pending);
    let used = Nibble::choose(circuit, test, a.used, b.used);
    let cause = Nibble::choose(circuit, test, a.cause, b.cause);
    let event = Nibble::choose(circuit, test, a.event, b.event);
    Wires {
        phase,
        place,
        last,
        unacknowledged,
        first,
        sender,
        pending,
        used,
        cause,
        event,
    }
}

/// The wires of the first row whose two literals are true, otherwise the others.
pub(crate) fn first_row(circuit: &mut Circuit, rows: &[Row], otherwise: Wires) -> Wires
    ensures { Makes circuit.old circuit.new (λ v. shown v result ≡ listed v rows.now (shown v otherwise)) }
{
    if rows.len() == 0 {
        return otherwise;
    }
    let rest = first_row(circuit, &rows[1..], otherwise);
    let row = rows[0];
    let test = circuit.and(row.0, row.1);
    choose_wires(circuit, test, row.2, rest)
}

/// The wires at an index that is a number; past the end the others.
pub(crate) fn select_wires(
    circuit: &mut Circuit,
    items: &[Wires],
    place: &[Literal],
    otherwise: Wires,
) -> Wires
    requires { length place.now ≤ 16 }
    ensures { Makes circuit.old circuit.new (λ v. shown v result ≡ shown v (slice_index_or items.now (number v place.now) otherwise)) }
{
    if place.len() == 0 {
        if items.len() == 0 {
            return otherwise;
        }
        return items[0];
    }
    let last = place.len() - 1;
    let half = power(last);
    let rest = &place[..last];
    if items.len() <= half {
        let low = select_wires(circuit, items, rest, otherwise);
        return choose_wires(circuit, place[last], otherwise, low);
    }
    let (front, back) = items.split_at(half);
    let low = select_wires(circuit, front, rest, otherwise);
    let high = select_wires(circuit, back, rest, otherwise);
    choose_wires(circuit, place[last], high, low)
}

/// 2 to the power of `places`.
fn power(places: usize) -> usize
    requires { places ≤ 16 }
    ensures { result ≡ 2 ^ places }
{
    1 << places
}
