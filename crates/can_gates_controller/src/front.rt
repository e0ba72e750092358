//! What has been received of a frame: a register for each unstuffed bit. (Bosch CAN 2.0 part B, sections 3.2.1 and 6)
ghost use Rattle.std.specs.Prelude.{◌≡◌, ◌<◌, ◌≤◌, ◌==◌, ◌&&◌, ◌||◌, ℕ, Bool, List, length, slice_index_or};
ghost use Rattle.can_frame.specs.declared.level.Level.{Level};
ghost use Rattle.can_frame.specs.Levels.{is_recessive};
ghost use Rattle.can_wire.specs.Layout.{frame_len};
ghost use Rattle.can_code.specs.Front.{FrontParts, heard_level};
ghost use Rattle.can_mac.specs.declared.phase.Role.{Role};
ghost use Rattle.can_mac.specs.Moves.{ends_part};
ghost use Rattle.can_gates.specs.Circuit.{value, Makes};
ghost use Rattle.can_gates.specs.Words.{number};
ghost use Rattle.can_gates_controller.specs.Fronts.{HoldsLevels, HoldsFront, HearsFront, TellsSender};
ghost use Rattle.can_gates_mac.specs.Inputs.{ReadsPart};

use crate::check::next_check;
use crate::heard::Heard;
use can_gates::{Circuit, FALSE, Literal, constant};
use can_gates_mac::{Part, StuffPlace, arbitrates, stuffing};

/// How many bits have a register: to the end of the data field of the longest frame. Bits of the CRC sequence have
/// none.
const PLACES: usize = 103;

/// How many unstuffed bits a standard frame without data has, with its CRC sequence.
const STANDARD_LENGTH: u64 = 34;

/// How many an extended frame without data has.
const EXTENDED_LENGTH: u64 = 54;

/// Returns the received frame with one more level. Also returns whether that level is a stuff bit, and whether it
/// repeats the last one.
pub fn hear(circuit: &mut Circuit, heard: &Heard, seen: Literal) -> (Heard, StuffPlace)
    ensures { Makes circuit.old circuit.new (λ v. (front : FrontParts) (x : Level) → HoldsFront v heard.now front → front.run ≤ 5 → length front.unstuffed < 127 → value v seen ≡ is_recessive x → HearsFront v result.0 result.1 front x) }
{
    let stuffing = stuffing(circuit, heard.last, heard.run, seen);
    let plain = stuffing.due.opposite();
    let level = circuit.and(plain, seen);
    let levels = written(circuit, &heard.levels, &heard.count, level);
    let count = circuit.raised(&heard.count, &[plain]);
    let check = next_check(circuit, &heard.check, plain, seen);
    let next = Heard {
        levels,
        count,
        last: stuffing.last,
        run: stuffing.run,
        check,
    };
    (next, stuffing)
}

/// The levels, with one more at this index.
fn written(
    circuit: &mut Circuit,
    levels: &[Literal; 103],
    count: &[Literal; 7],
    level: Literal,
) -> [Literal; 103]
    ensures { Makes circuit.old circuit.new (λ v. (p : ℕ) → p < 103 → value v (slice_index_or result p FALSE) ≡ (value v (slice_index_or levels.now p FALSE) || ((number v count.now == p) && value v level))) }
{
    let mut all = [FALSE; PLACES];
    for place in 0..PLACES {
        let number = constant::<7>(place as u64);
        let here = circuit.equals(count, &number);
        let new = circuit.and(here, level);
        all[place] = circuit.or(levels[place], new);
    }
    all
}

/// Returns what the move of the stuffed part reads, and the received frame with the sampled level. `sent` is whether
/// the next level of the transmitter's frame is recessive, `extended` whether that frame is extended.
pub fn read(
    circuit: &mut Circuit,
    heard: &Heard,
    seen: Literal,
    sent: Literal,
    extended: Literal,
) -> (Heard, Part)
    ensures { Makes circuit.old circuit.new (λ v. (role : Role) (front : FrontParts) (x : Level) → HoldsFront v heard.now front → front.run ≤ 5 → length front.unstuffed < 127 → value v seen ≡ is_recessive x → TellsSender v sent extended role front → HoldsFront v result.0 (heard_level front x) × ReadsPart v result.1 role front x) }
{
    let (next, stuffing) = hear(circuit, heard, seen);
    let ends = ends(circuit, &next);
    let arbitrates = arbitrates(circuit, &heard.count, extended);
    let part = Part {
        due: stuffing.due,
        repeats: stuffing.repeats,
        arbitrates,
        sent,
        ends,
    };
    (next, part)
}

/// Returns whether the stuffed part has ended: the CRC sequence is complete, and no stuff bit is due.
pub fn ends(circuit: &mut Circuit, heard: &Heard) -> Literal
    ensures { Makes circuit.old circuit.new (λ v. (front : FrontParts) → HoldsFront v heard.now front → front.run ≤ 5 → value v result ≡ ends_part front) }
{
    let length = frame_length(circuit, &heard.levels);
    let whole = circuit.equals(&length, &heard.count);
    let due = circuit.and(heard.run.ones, heard.run.fours);
    circuit.and(whole, due.opposite())
}

/// How many unstuffed bits the frame has that begins with these, with its CRC sequence.
pub(crate) fn frame_length(circuit: &mut Circuit, levels: &[Literal; 103]) -> [Literal; 7]
    ensures { Makes circuit.old circuit.new (λ v. (u : List Level) → HoldsLevels v levels.now u → number v result ≡ frame_len u) }
{
    let extended = levels[13];
    let remote = circuit.ite(extended, levels[32], levels[12]);
    let eights = circuit.ite(extended, levels[35], levels[15]);
    let fours = circuit.ite(extended, levels[36], levels[16]);
    let twos = circuit.ite(extended, levels[37], levels[17]);
    let ones = circuit.ite(extended, levels[38], levels[18]);
    let eight = circuit.and(remote.opposite(), eights);
    let few = circuit.and(remote.opposite(), eights.opposite());
    let four = circuit.and(few, fours);
    let two = circuit.and(few, twos);
    let one = circuit.and(few, ones);
    let long = constant::<6>(EXTENDED_LENGTH);
    let short = constant::<6>(STANDARD_LENGTH);
    let least = circuit.choose(extended, &long, &short);
    let data = [FALSE, FALSE, FALSE, one, two, four, eight];
    let mut carry = FALSE;
    circuit.add(&data, &least, &mut carry)
}
