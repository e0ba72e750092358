//! The names of the controller's ports and registers.
ghost use Rattle.std.specs.Prelude.{◌≡◌, length};
ghost use Rattle.can_gates.specs.Readable.{AreReadable};
ghost use Rattle.can_gates_controller.specs.declared.design.Design.{Design};
ghost use Rattle.can_gates_controller.specs.declared.ports.InputPorts.{InputPorts};
ghost use Rattle.can_gates_controller.specs.declared.ports.OutputPorts.{OutputPorts};
ghost use Rattle.can_gates_controller.specs.declared.registers.Registers.{Registers};
ghost use Rattle.can_gates_controller.specs.Listed.{input_list, output_list, register_list};
ghost use Rattle.cangates.specs.Ports.{IsNamed, input_words, literals_of, output_words, register_words};

use can_gates::{Names, Word};

/// The literals of all words, one after another, are the inputs, registers and outputs in the order of a file. There
/// are 107 inputs, 277 registers and 124 outputs. It does nothing.
pub fn words_are_the_ports()
    ensures inputs { (k : InputPorts) → literals_of (input_words k) ≡ input_list k }
    ensures registers { (k : Registers) → literals_of (register_words k) ≡ register_list k }
    ensures outputs { (k : OutputPorts) → literals_of (output_words k) ≡ output_list k }
    ensures inputs_fit { (k : InputPorts) → length (input_list k) ≡ 107 }
    ensures registers_fit { (k : Registers) → length (register_list k) ≡ 277 }
    ensures outputs_fit { (k : OutputPorts) → length (output_list k) ≡ 124 }
{}

/// The names of the controller's ports and registers, in the order of its circuit.
pub(crate) fn names() -> Names<'static>
    ensures named { (d : Design) → IsNamed result d }
    ensures readable { AreReadable result }
{
    Names {
        circuit: "riddlesage_controller",
        meaning: "A classical CAN controller, a bit time in each step, written by cangates 0.9.0",
        inputs: INPUTS,
        registers: REGISTERS,
        outputs: OUTPUTS,
    }
}

const INPUTS: &[Word<'static>] = &[
    Word {
        name: "reset",
        places: 1,
        meaning: "the registers become those of an idle controller, or of one that integrates, whatever enable is",
    },
    Word {
        name: "integrating",
        places: 1,
        meaning: "with reset: it waits for eleven recessive levels first",
    },
    Word {
        name: "enable",
        places: 1,
        meaning: "a bit time passes; if it is 0, nothing changes",
    },
    Word {
        name: "bus",
        places: 1,
        meaning: "the sampled level, 1 is recessive",
    },
    Word {
        name: "overload_request",
        places: 1,
        meaning: "with enable: requests own overload frames, before the bit time",
    },
    Word {
        name: "overload_count",
        places: 2,
        meaning: "the number of them, 0 to 2; 3 changes nothing",
    },
    Word {
        name: "waits",
        places: 1,
        meaning: "a frame is pending",
    },
    Word {
        name: "wait_extended",
        places: 1,
        meaning: "its identifier has 29 bits",
    },
    Word {
        name: "wait_remote",
        places: 1,
        meaning: "it is a remote frame",
    },
    Word {
        name: "wait_identifier",
        places: 29,
        meaning: "its identifier, a standard one in the lowest eleven places",
    },
    Word {
        name: "wait_dlc",
        places: 4,
        meaning: "its data length code",
    },
    Word {
        name: "wait_data",
        places: 64,
        meaning: "its data, byte k from place 8k on; bytes past its data length are ignored",
    },
];

const OUTPUTS: &[Word<'static>] = &[
    Word {
        name: "drive",
        places: 1,
        meaning: "the level driven in this bit time, 1 is recessive",
    },
    Word {
        name: "event_code",
        places: 4,
        meaning: "the event of the bit time: 0 none, 1 sent, 2 received, 3 lost, errors 4 bit 5 stuff 6 CRC 7 form 8 ACK, 9 overload, 10 went off, 11 recovered",
    },
    Word {
        name: "frame_extended",
        places: 1,
        meaning: "the frame that was sent or received: its identifier has 29 bits; at other times arbitrary",
    },
    Word {
        name: "frame_remote",
        places: 1,
        meaning: "it is a remote frame",
    },
    Word {
        name: "frame_identifier",
        places: 29,
        meaning: "its identifier, a standard one in the lowest eleven places",
    },
    Word {
        name: "frame_dlc",
        places: 4,
        meaning: "its data length code",
    },
    Word {
        name: "frame_data",
        places: 64,
        meaning: "its data, byte k from place 8k on; bytes past its data length are 0",
    },
    Word {
        name: "tec",
        places: 9,
        meaning: "the transmit error counter in the registers",
    },
    Word {
        name: "rec",
        places: 8,
        meaning: "the receive error counter in the registers",
    },
    Word {
        name: "passive",
        places: 1,
        meaning: "error passive",
    },
    Word {
        name: "off",
        places: 1,
        meaning: "bus off",
    },
    Word {
        name: "legal",
        places: 1,
        meaning: "1 in each state that a run from reset reaches",
    },
];

const REGISTERS: &[Word<'static>] = &[
    Word {
        name: "phase",
        places: 4,
        meaning: "0 idle, 1 joining, 2 stuffed part, 3 CRC delimiter, 4 ACK slot, 5 ACK delimiter, 6 end of frame, 7 error flag, 8 passive error flag, 9 overload flag, 10 after a flag, 11 delimiter, 12 intermission, 13 suspend transmission, 14 bus off",
    },
    Word {
        name: "place",
        places: 4,
        meaning: "the place in the phase, or how many levels in a row it has counted",
    },
    Word {
        name: "last",
        places: 1,
        meaning: "in a passive error flag, its last level, 1 is recessive",
    },
    Word {
        name: "unacknowledged",
        places: 1,
        meaning: "in a passive error flag, it is that of a transmitter without acknowledgement",
    },
    Word {
        name: "first",
        places: 1,
        meaning: "after an error flag, the next level is the first one",
    },
    Word {
        name: "sender",
        places: 1,
        meaning: "the frame on the bus is its own",
    },
    Word {
        name: "pending",
        places: 4,
        meaning: "how many own overload frames are still requested: each that starts uses up one",
    },
    Word {
        name: "used",
        places: 4,
        meaning: "how many own overload frames have started since the last start of frame",
    },
    Word {
        name: "tec_count",
        places: 9,
        meaning: "the transmit error counter",
    },
    Word {
        name: "rec_count",
        places: 8,
        meaning: "the receive error counter",
    },
    Word {
        name: "occurrences",
        places: 7,
        meaning: "in bus off, how many times eleven recessive levels in a row were seen",
    },
    Word {
        name: "heard",
        places: 103,
        meaning: "the unstuffed levels received of a frame, start of frame first, 1 is recessive",
    },
    Word {
        name: "heard_count",
        places: 7,
        meaning: "how many unstuffed levels were received",
    },
    Word {
        name: "heard_last",
        places: 1,
        meaning: "the last level received, which may be a stuff bit",
    },
    Word {
        name: "heard_run",
        places: 4,
        meaning: "how many levels in a row equal it, including itself",
    },
    Word {
        name: "heard_check",
        places: 15,
        meaning: "the CRC sequence of the unstuffed levels, its first level first",
    },
    Word {
        name: "own",
        places: 103,
        meaning: "the unstuffed levels of the transmitter's frame to the end of its data, start of frame first",
    },
];
