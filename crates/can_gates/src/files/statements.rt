//! Statements of Verilog.
ghost use Rattle.std.specs.Prelude.{◌≡◌, ◌+◌, ◌<◌, ◌^◌, ◌++◌, [], length, List, Some, map};
ghost use Rattle.std.specs.List.{flat_map};
ghost use Rattle.can_gates.specs.Names.{bit_text};
ghost use Rattle.can_gates.specs.Statements.{Statement, And, Wire, Assign, Take, AreProper, statement_text, statement_in, words_by_line};
ghost use Rattle.can_gates.specs.Texts.{Writes};
ghost use Rattle.can_gates.specs.Verilog.{assigns, takes, wires, next_of};

use crate::circuit::Gate;
use crate::files::pieces::{push_bit, push_literal};
use crate::files::text::Text;
use crate::files::words::{AllBits, Bit};
use crate::literal::{FALSE, Literal};
use crate::register::Register;
use crate::words::literal_at;

/// Appends a wire for each name of an input or a register: signals 1, 2 and so on.
pub(crate) fn push_signals(text: &mut Text, bits: &AllBits<'_>)
    ensures { Writes text.old text.new (flat_map statement_text (wires 1 (bits.now.inputs.items ++ bits.now.registers.items))) }
{
    push_wires(text, 1, &bits.inputs);
    push_wires(text, 1 + bits.inputs.len() as u64, &bits.registers);
}

/// Appends a wire for each of these names: signals `first`, `first` + 1 and so on.
fn push_wires(text: &mut Text, first: u64, bits: &[Bit<'_>])
    requires { first + length bits.now < 2 ^ 64 }
    ensures { Writes text.old text.new (flat_map statement_text (wires first bits.now)) }
{
    let mut signal = first;
    for bit in bits {
        push_wire(text, signal, bit);
        signal += 1;
    }
}

/// Appends a wire of this signal with this name.
fn push_wire(text: &mut Text, signal: u64, bit: &Bit<'_>)
    ensures { Writes text.old text.new (statement_text (Wire signal (bit_text bit.now))) }
{
    text.push(b"wire n");
    text.push_number(signal);
    text.push(b" = ");
    push_bit(text, bit);
    text.push(b";\n");
}

/// Appends the wires of gates.
pub(crate) fn push_gates(text: &mut Text, gates: &[Gate])
    ensures { Writes text.old text.new (flat_map statement_text (map And gates.now)) }
{
    for gate in gates {
        push_gate(text, *gate);
    }
}

/// Appends the wire of a gate.
fn push_gate(text: &mut Text, gate: Gate)
    ensures { Writes text.old text.new (statement_text (And gate)) }
{
    text.push(b"wire n");
    text.push_number(u64::from(gate.signal));
    text.push(b" = ");
    push_literal(text, gate.left);
    text.push(b" & ");
    push_literal(text, gate.right);
    text.push(b";\n");
}

/// Appends the assignment of each of these names: the output with its index.
pub(crate) fn push_assigns(text: &mut Text, bits: &[Bit<'_>], outputs: &[Literal])
    ensures { Writes text.old text.new (flat_map statement_text (assigns 0 bits.now outputs.now)) }
{
    let mut place = 0;
    for bit in bits {
        push_assign(text, bit, literal_at(outputs, place));
        place += 1;
    }
}

/// Appends the assignment of a literal to a name.
fn push_assign(text: &mut Text, bit: &Bit<'_>, literal: Literal)
    ensures { Writes text.old text.new (statement_text (Assign (bit_text bit.now) literal)) }
{
    text.push(b"assign ");
    push_bit(text, bit);
    text.push(b" = ");
    push_literal(text, literal);
    text.push(b";\n");
}

/// Appends the next value of each of these names: that of the register with its index.
pub(crate) fn push_takes(text: &mut Text, bits: &[Bit<'_>], registers: &[Register])
    ensures { Writes text.old text.new (flat_map statement_text (takes 0 bits.now registers.now)) }
{
    let mut place = 0;
    for bit in bits {
        push_take(text, bit, next_at(registers, place));
        place += 1;
    }
}

/// Appends the next value of a name.
fn push_take(text: &mut Text, bit: &Bit<'_>, literal: Literal)
    ensures { Writes text.old text.new (statement_text (Take (bit_text bit.now) literal)) }
{
    push_bit(text, bit);
    text.push(b" <= ");
    push_literal(text, literal);
    text.push(b";\n");
}

/// The next value of the register with this index.
fn next_at(registers: &[Register], place: usize) -> Literal
    ensures { result ≡ next_of registers.now place }
{
    match registers.get(place) {
        Some(register) => register.next,
        None => FALSE,
    }
}

/// A reader recovers the statements of a text. No name may have a space, a semicolon or a newline, and numbers must be
/// below 2^64. A law: it does nothing.
pub fn statements_are_read_back()
    ensures { (statements : List Statement) → AreProper statements → map statement_in (words_by_line [] [] (flat_map statement_text statements)) ≡ map Some statements }
{}
