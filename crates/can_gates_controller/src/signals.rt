//! Which signals are inputs and registers.
ghost use Rattle.std.specs.Prelude.{◌≡◌, ◌+◌, ◌<◌, ◌^◌, [], ℕ, Bool, length};
ghost use Rattle.can_gates.specs.Circuit.{value};
ghost use Rattle.can_gates_controller.specs.Listed.{AreSignals, nibble_before, counters_list, heard_list, register_list, field_list, input_list};

use crate::fields::Fields;
use crate::heard::Heard;
use crate::ports::InputPorts;
use crate::registers::Registers;
use can_gates::{FALSE, Literal};
use can_gates_mac::{Controller, Counters, Nibble, Wires};

/// The first signal of the pending frame.
const FRAME: u32 = 9;

/// How many bits of a frame have a register.
const PLACES: u32 = 103;

/// The first signal of a register: of the controller without its counters.
const WIRES: u32 = FRAME + 99;

/// The first signal of a counter.
const COUNTERS: u32 = WIRES + 20;

/// The first signal of what has been received.
const HEARD: u32 = COUNTERS + 24;

/// The first signal of the transmitter's frame.
const OWN: u32 = HEARD + PLACES + 27;

/// How many signals are inputs or registers.
pub(crate) const INPUTS: u32 = OWN + PLACES - 1;

/// The inputs of a step: a circuit input each, in the order of their names.
pub(crate) fn input_ports() -> InputPorts
    ensures { AreSignals 1 107 (input_list result) }
{
    let frame = frame_ports();
    InputPorts {
        reset: signal(1),
        integrating: signal(2),
        enable: signal(3),
        bus: signal(4),
        overload_request: signal(5),
        overload_count_ones: signal(6),
        overload_count_twos: signal(7),
        waits: signal(8),
        frame,
    }
}

/// The fields of the pending frame.
fn frame_ports() -> Fields
    ensures { AreSignals 9 99 (field_list result) }
{
    Fields {
        extended: signal(FRAME),
        remote: signal(FRAME + 1),
        identifier: signals(FRAME + 2),
        dlc: nibble(FRAME + 31),
        bytes: signals(FRAME + 35),
    }
}

/// The registers: a circuit input each, in the order of their names.
pub(crate) fn registers() -> Registers
    ensures { AreSignals 108 277 (register_list result) }
{
    let wires = Wires {
        phase: nibble(WIRES),
        place: nibble(WIRES + 4),
        last: signal(WIRES + 8),
        unacknowledged: signal(WIRES + 9),
        first: signal(WIRES + 10),
        sender: signal(WIRES + 11),
        pending: nibble(WIRES + 12),
        used: nibble(WIRES + 16),
        cause: Nibble::of(0),
        event: Nibble::of(0),
    };
    Registers {
        controller: Controller {
            wires,
            counters: counters(),
        },
        heard: heard(),
        own: signals(OWN),
    }
}

/// Those of the counters.
fn counters() -> Counters
    ensures { AreSignals 128 24 (counters_list result) }
{
    Counters {
        tec: signals(COUNTERS),
        rec: signals(COUNTERS + 9),
        occurrences: signals(COUNTERS + 17),
    }
}

/// Those of what has been received.
fn heard() -> Heard
    ensures { AreSignals 152 130 (heard_list result) }
{
    Heard {
        levels: signals(HEARD),
        count: signals(HEARD + PLACES),
        last: signal(HEARD + PLACES + 7),
        run: nibble(HEARD + PLACES + 8),
        check: signals(HEARD + PLACES + 12),
    }
}

/// A signal.
#[tactic(auto, unfolding(can_gates::specs::Circuit::value))]
fn signal(signal: u32) -> Literal
    ensures { (v : ℕ → Bool) → value v result ≡ v signal }
{
    Literal {
        signal,
        negated: false,
    }
}

/// Four signals, the first of which is this one.
fn nibble(first: u32) -> Nibble
    requires { first < 2 ^ 31 }
    ensures { AreSignals first 4 (nibble_before result []) }
{
    Nibble {
        ones: signal(first),
        twos: signal(first + 1),
        fours: signal(first + 2),
        eights: signal(first + 3),
    }
}

/// N signals, the first of which is this one.
fn signals<const N: usize>(first: u32) -> [Literal; N]
    requires { first + N < 2 ^ 32 }
    ensures places { length result ≡ N }
    ensures signals { AreSignals first N result }
{
    let mut word = [FALSE; N];
    for place in 0..N {
        word[place] = signal(first + place as u32);
    }
    word
}
