//! AIGER, with names.
ghost use Rattle.std.specs.Prelude.{◌≡◌, ◌+◌, ◌-◌, ◌≤◌, ◌<◌, ◌^◌, ◌++◌, ℕ, List, [], None, length, map, reverse, IfErr, IfOk};
ghost use Rattle.std.specs.List.{flat_map};
ghost use Rattle.can_gates.specs.declared.register.Register.{Register as RegisterParts};
ghost use Rattle.can_gates.specs.declared.literal.Literal.{Literal as Side};
ghost use Rattle.can_gates.specs.Aiger.{line_text, file_lines};
ghost use Rattle.can_gates.specs.AigerNumbers.{AreLines};
ghost use Rattle.can_gates.specs.Circuit.{CircuitParts};
ghost use Rattle.can_gates.specs.Lacking.{fault_of};
ghost use Rattle.can_gates.specs.Ordered.{IsOrdered};
ghost use Rattle.can_gates.specs.declared.files.words.Names.{Names as AllNames};
ghost use Rattle.can_gates.specs.Binary.{binary_text, gate_bytes, gates_in, groups, register_numbers};
ghost use Rattle.can_gates.specs.Files.{binary_lines, names_lines, read_ascii, read_binary};
ghost use Rattle.can_gates.specs.Named.{ascii_text};
ghost use Rattle.can_gates.specs.Readable.{AreReadable};
ghost use Rattle.can_gates.specs.Texts.{Writes};

use crate::circuit::{Circuit, Gate};
use crate::files::lines::{push_header, push_line, push_numbers, push_outputs};
use crate::files::symbols::push_names;
use crate::files::text::Text;
use crate::files::words::{AllBits, Names};
use crate::lack::CircuitFault;
use crate::literal::{Literal, bit_of};
use crate::register::Register;
use std::alloc::Global;

/// How many groups of seven bits a number may have after its first one.
const MORE_GROUPS: u32 = 9;

/// Returns an AIGER file in the ASCII format, with the names of a circuit, and their meaning as a comment. The last
/// inputs of the circuit are the values of these registers, in their order. A circuit that lacks a gate is refused with
/// its reason; a complete one only if an allocation fails.
pub fn ascii_file(
    alloc: Global,
    names: &Names<'_>,
    circuit: &Circuit,
    registers: &[Register],
    outputs: &[Literal],
) -> Result<Vec<u8>, CircuitFault>
    requires { length registers.now ≤ circuit.now.inputs }
    ensures text { IfOk result (λ r. r.items ≡ ascii_text names.now circuit.now registers.now outputs.now) }
    ensures complete { IfOk result (λ r. circuit.now.lack ≡ None) }
    ensures fault { IfErr result (λ e. e ≡ fault_of circuit.now.lack) }
{
    if let Some(lack) = circuit.lack() {
        return Err(CircuitFault::Incomplete(lack));
    }
    let bits = AllBits::new(alloc, names)?;
    let mut text = Text::new(alloc);
    push_numbers(&mut text, circuit, registers, outputs);
    push_names(&mut text, names, &bits);
    Ok(text.finished()?)
}

/// Returns an AIGER file in the binary format. It has the same content and refusals as [`ascii_file`].
pub fn binary_file(
    alloc: Global,
    names: &Names<'_>,
    circuit: &Circuit,
    registers: &[Register],
    outputs: &[Literal],
) -> Result<Vec<u8>, CircuitFault>
    requires { length registers.now ≤ circuit.now.inputs }
    ensures text { IfOk result (λ r. r.items ≡ binary_text names.now circuit.now registers.now outputs.now) }
    ensures complete { IfOk result (λ r. circuit.now.lack ≡ None) }
    ensures fault { IfErr result (λ e. e ≡ fault_of circuit.now.lack) }
{
    if let Some(lack) = circuit.lack() {
        return Err(CircuitFault::Incomplete(lack));
    }
    let bits = AllBits::new(alloc, names)?;
    let mut text = Text::new(alloc);
    text.push(b"aig ");
    push_header(&mut text, circuit, registers, outputs);
    push_registers(&mut text, registers);
    push_outputs(&mut text, outputs);
    push_gates(&mut text, circuit.gates());
    push_names(&mut text, names, &bits);
    Ok(text.finished()?)
}

/// Appends the lines of registers.
fn push_registers(text: &mut Text, registers: &[Register])
    ensures { Writes text.old text.new (flat_map line_text (map register_numbers registers.now)) }
{
    for register in registers {
        push_line(text, register.next.code(), &[bit_of(register.starts)]);
    }
}

/// Appends the differences of gates.
fn push_gates(text: &mut Text, gates: &[Gate])
    ensures { Writes text.old text.new (flat_map gate_bytes gates.now) }
{
    for gate in gates {
        let signal = 2 * u64::from(gate.signal);
        let (left, right) = (gate.left.code(), gate.right.code());
        push_groups(text, signal.saturating_sub(left), MORE_GROUPS);
        push_groups(text, left.saturating_sub(right), MORE_GROUPS);
    }
}

/// Appends a number in groups of seven bits, the lowest first: one group and at most `most` more.
fn push_groups(text: &mut Text, number: u64, most: u32)
    ensures { Writes text.old text.new (groups most number) }
{
    let mut rest = number;
    let mut more = most;
    while more > 0 && rest >= 128 {
        text.push_byte(128 + (rest % 128) as u8);
        rest /= 128;
        more -= 1;
    }
    text.push_byte((rest % 128) as u8);
}

/// A reader recovers the gates of a circuit from the bytes of its binary file. The gates must be in order, and signals
/// below 2^32. A law: it does nothing.
pub fn gates_are_read_back()
    ensures { (c : CircuitParts) (behind : List ℕ) → IsOrdered c.inputs c.highest c.gates → c.highest < 2 ^ 32
        → gates_in (length c.gates) (c.inputs + 1) (flat_map gate_bytes (reverse c.gates) ++ behind) ≡ reverse c.gates }
{}

/// A reader recovers the numbers, the names and the comment of an ASCII file. Names and meanings must be readable, and
/// numbers below 2^64. The first line of numbers is the header. A law: it does nothing.
pub fn ascii_files_are_read_back()
    ensures { (n : AllNames) (c : CircuitParts) (registers : List RegisterParts) (outputs : List Side) → AreReadable n → AreLines (file_lines c registers outputs)
        → read_ascii (ascii_text n c registers outputs) ≡ record { numbers = file_lines c registers outputs; names = names_lines n } }
{}

/// A reader recovers the numbers, the gates, the names and the comment of a binary file. Names and meanings must be
/// readable, numbers below 2^64, the gates in order, and signals below 2^32. There must be no more registers than
/// inputs. A law: it does nothing.
pub fn binary_files_are_read_back()
    ensures { (n : AllNames) (c : CircuitParts) (registers : List RegisterParts) (outputs : List Side) → AreReadable n → AreLines (file_lines c registers outputs)
        → IsOrdered c.inputs c.highest c.gates → c.highest < 2 ^ 32 → length registers ≤ c.inputs
        → read_binary (binary_text n c registers outputs) ≡ record { numbers = binary_lines c registers outputs; gates = reverse c.gates; names = names_lines n } }
{}
