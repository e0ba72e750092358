//! Modules of Verilog-2001.
ghost use Rattle.std.specs.Prelude.{◌≡◌, ◌++◌, List, None, codes, decimal, IfErr, IfOk};
ghost use Rattle.std.specs.List.{flat_map};
ghost use Rattle.can_gates.specs.declared.register.Register.{Register as RegisterParts};
ghost use Rattle.can_gates.specs.declared.literal.Literal.{Literal as Side};
ghost use Rattle.can_gates.specs.Aiger.{file_lines};
ghost use Rattle.can_gates.specs.AigerNumbers.{AreLines};
ghost use Rattle.can_gates.specs.Circuit.{CircuitParts};
ghost use Rattle.can_gates.specs.Lacking.{fault_of};
ghost use Rattle.can_gates.specs.declared.files.words.Names.{Names as AllNames};
ghost use Rattle.can_gates.specs.Module.{module_lines, read_module};
ghost use Rattle.can_gates.specs.Readable.{AreReadable};
ghost use Rattle.can_gates.specs.Texts.{Writes};
ghost use Rattle.can_gates.specs.Verilog.{declaration_text, declarations_text, head_text, port_text, steps_text, title_text, verilog_text, width_text};

use crate::circuit::Circuit;
use crate::files::statements::{push_assigns, push_gates, push_signals, push_takes};
use crate::files::text::Text;
use crate::files::words::{AllBits, Bit, Names, Word};
use crate::lack::CircuitFault;
use crate::literal::Literal;
use crate::register::Register;
use std::alloc::Global;

/// Returns a Verilog module of a circuit. The last inputs of the circuit are the values of these registers, in their
/// order. The names of the module's inputs, which follow the clock, and of its registers are in the order of the
/// circuit's inputs. A circuit that lacks a gate is refused with its reason; a complete one only if an allocation
/// fails.
pub fn verilog_file(
    alloc: Global,
    names: &Names<'_>,
    circuit: &Circuit,
    registers: &[Register],
    outputs: &[Literal],
) -> Result<Vec<u8>, CircuitFault>
    ensures text { IfOk result (λ r. r.items ≡ verilog_text names.now circuit.now registers.now outputs.now) }
    ensures complete { IfOk result (λ r. circuit.now.lack ≡ None) }
    ensures fault { IfErr result (λ e. e ≡ fault_of circuit.now.lack) }
{
    if let Some(lack) = circuit.lack() {
        return Err(CircuitFault::Incomplete(lack));
    }
    let bits = AllBits::new(alloc, names)?;
    let mut text = Text::new(alloc);
    push_head(&mut text, names);
    push_signals(&mut text, &bits);
    push_gates(&mut text, circuit.gates());
    push_assigns(&mut text, &bits.outputs, outputs);
    push_steps(&mut text, &bits.registers, registers);
    Ok(text.finished()?)
}

/// Appends the next values of the registers with these names, and the end of the module.
fn push_steps(text: &mut Text, held: &[Bit<'_>], registers: &[Register])
    ensures { Writes text.old text.new (steps_text held.now registers.now) }
{
    text.push(b"always @(posedge clock) begin\n");
    push_takes(text, held, registers);
    text.push(b"end\nendmodule\n");
}

/// Appends the text before the statements.
#[tactic(auto, unfolding(crate::specs::Verilog::head_text))]
fn push_head(text: &mut Text, names: &Names<'_>)
    ensures { Writes text.old text.new (head_text names.now) }
{
    push_title(text, names);
    push_ports(text, names.inputs);
    push_ports(text, names.outputs);
    push_all_declarations(text, names);
}

/// Appends the comment with the module's meaning, and its beginning.
fn push_title(text: &mut Text, names: &Names<'_>)
    ensures { Writes text.old text.new (title_text names.now) }
{
    text.push(b"// ");
    text.push(names.meaning.as_bytes());
    text.push(b"\nmodule ");
    text.push(names.circuit.as_bytes());
    text.push(b"(clock");
}

/// Appends the declarations of all ports and registers.
fn push_all_declarations(text: &mut Text, names: &Names<'_>)
    ensures { Writes text.old text.new (declarations_text names.now) }
{
    text.push(b");\ninput clock; // with each rising edge the registers take their next values\n");
    push_declarations(text, "input", names.inputs);
    push_declarations(text, "output", names.outputs);
    push_declarations(text, "reg", names.registers);
    text.push(b"wire n0 = 1'b0;\n");
}

/// Appends the names of words, each after a comma.
fn push_ports(text: &mut Text, words: &[Word<'_>])
    ensures { Writes text.old text.new (flat_map port_text words.now) }
{
    for word in words {
        text.push(b", ");
        text.push(word.name.as_bytes());
    }
}

/// Appends the declarations of words of this kind.
fn push_declarations(text: &mut Text, kind: &str, words: &[Word<'_>])
    ensures { Writes text.old text.new (flat_map (declaration_text kind.now) words.now) }
{
    for word in words {
        push_declaration(text, kind, word);
    }
}

/// Appends the declaration of a word.
fn push_declaration(text: &mut Text, kind: &str, word: &Word<'_>)
    ensures { Writes text.old text.new (declaration_text kind.now word.now) }
{
    text.push(kind.as_bytes());
    push_width(text, word.places);
    text.push(word.name.as_bytes());
    text.push(b"; // ");
    text.push(word.meaning.as_bytes());
    text.push(b"\n");
}

/// Appends the range of a word, between a kind and a name.
fn push_width(text: &mut Text, places: u32)
    ensures { Writes text.old text.new (width_text places) }
{
    if places == 1 {
        text.push(b" ");
    } else {
        push_range(text, places.saturating_sub(1));
    }
}

/// Appends a range whose highest index is this one.
fn push_range(text: &mut Text, highest: u32)
    ensures { Writes text.old text.new (codes " [" ++ (decimal highest ++ codes ":0] ")) }
{
    text.push(b" [");
    text.push_number(u64::from(highest));
    text.push(b":0] ");
}

/// A reader recovers each line of a module. Names and meanings must be readable, and the numbers of the circuit below
/// 2^64. A law: it does nothing.
pub fn modules_are_read_back()
    ensures { (n : AllNames) (c : CircuitParts) (registers : List RegisterParts) (outputs : List Side) → AreReadable n → AreLines (file_lines c registers outputs)
        → read_module (verilog_text n c registers outputs) ≡ module_lines n c registers outputs }
{}
