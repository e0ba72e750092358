//! Lines of numbers, as in AIGER's ASCII format.
ghost use Rattle.std.specs.Prelude.{◌≡◌, ◌+◌, ◌-◌, ◌≤◌, ◌<◌, ◌^◌, ◌++◌, ◌∷◌, ℕ, List, [], length, map, decimal};
ghost use Rattle.std.specs.List.{flat_map};
ghost use Rattle.can_gates.specs.Aiger.{aiger_text, gate_numbers, header, input_lines, line_text, numbers_in, numbers_behind, output_numbers, register_lines};
ghost use Rattle.can_gates.specs.AigerNumbers.{AreLines};
ghost use Rattle.can_gates.specs.Texts.{Writes};
ghost use Rattle.can_gates.specs.Words.{bit};

use crate::circuit::{Circuit, Gate};
use crate::files::text::Text;
use crate::literal::{Literal, bit_of};
use crate::register::Register;

/// Appends all lines of numbers of a circuit. Its last inputs are the values of these registers, in their order.
pub(crate) fn push_numbers(
    text: &mut Text,
    circuit: &Circuit,
    registers: &[Register],
    outputs: &[Literal],
)
    requires { length registers.now ≤ circuit.now.inputs }
    ensures { Writes text.old text.new (aiger_text circuit.now registers.now outputs.now) }
{
    let inputs = u64::from(circuit.inputs()) - registers.len() as u64;
    text.push(b"aag ");
    push_header(text, circuit, registers, outputs);
    push_inputs(text, inputs);
    push_registers(text, inputs, registers);
    push_outputs(text, outputs);
    push_gates(text, circuit.gates());
}

/// Appends the first line, after the name of the format.
pub(crate) fn push_header(
    text: &mut Text,
    circuit: &Circuit,
    registers: &[Register],
    outputs: &[Literal],
)
    requires { length registers.now ≤ circuit.now.inputs }
    ensures { Writes text.old text.new (line_text (header circuit.now registers.now outputs.now)) }
{
    let registers = registers.len() as u64;
    let inputs = u64::from(circuit.inputs()) - registers;
    let gates = circuit.gates().len() as u64;
    push_line(
        text,
        u64::from(circuit.highest()),
        &[inputs, registers, outputs.len() as u64, gates],
    );
}

/// Appends the lines of the first `inputs` signals.
fn push_inputs(text: &mut Text, inputs: u64)
    requires { inputs < 2 ^ 32 }
    ensures { Writes text.old text.new (flat_map line_text (input_lines inputs)) }
{
    for input in 0..inputs {
        push_line(text, 2 * (input + 1), &[]);
    }
}

/// Appends the lines of registers, whose signals follow signal `before`.
fn push_registers(text: &mut Text, before: u64, registers: &[Register])
    requires { before + length registers.now < 2 ^ 32 }
    ensures { Writes text.old text.new (flat_map line_text (register_lines before registers.now)) }
{
    let mut signal = before;
    for register in registers {
        push_line(
            text,
            2 * (signal + 1),
            &[register.next.code(), bit_of(register.starts)],
        );
        signal += 1;
    }
}

/// Appends the lines of outputs.
pub(crate) fn push_outputs(text: &mut Text, outputs: &[Literal])
    ensures { Writes text.old text.new (flat_map line_text (map output_numbers outputs.now)) }
{
    for output in outputs {
        push_line(text, output.code(), &[]);
    }
}

/// Appends the lines of gates.
fn push_gates(text: &mut Text, gates: &[Gate])
    ensures { Writes text.old text.new (flat_map line_text (map gate_numbers gates.now)) }
{
    for gate in gates {
        push_line(
            text,
            2 * u64::from(gate.signal),
            &[gate.left.code(), gate.right.code()],
        );
    }
}

/// Appends a line of numbers.
pub(crate) fn push_line(text: &mut Text, first: u64, others: &[u64])
    ensures { Writes text.old text.new (decimal first ++ numbers_behind others.now) }
{
    text.push_number(first);
    for number in others {
        text.push(b" ");
        text.push_number(*number);
    }
    text.push(b"\n");
}

/// A reader recovers the lines of numbers of a text. Each line must have a number, and all numbers must be below 2^64.
/// A law: it does nothing.
pub fn lines_are_read_back()
    ensures { (lines : List (List ℕ)) → AreLines lines → numbers_in [] 0 (flat_map line_text lines) ≡ lines }
{}
