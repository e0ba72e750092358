//! The names of an AIGER file, and their meaning.
ghost use Rattle.std.specs.Prelude.{◌≡◌, ◌++◌, [], List, map};
ghost use Rattle.std.specs.List.{flat_map};
ghost use Rattle.can_gates.specs.Named.{Symbol, AreSymbols, comment_text, meaning_line, meaning_text, names_text, symbol_text, symbol_words, symbols};
ghost use Rattle.can_gates.specs.Names.{bit_text};
ghost use Rattle.can_gates.specs.Statements.{words_by_line};
ghost use Rattle.can_gates.specs.Texts.{AreBitsOf, Writes};

use crate::files::pieces::push_bit;
use crate::files::text::Text;
use crate::files::words::{AllBits, Bit, Names, Word};

/// Appends the names of inputs, registers and outputs, and a comment with their meaning.
pub(crate) fn push_names(text: &mut Text, names: &Names<'_>, bits: &AllBits<'_>)
    requires { AreBitsOf names.now bits.now }
    ensures { Writes text.old text.new (names_text names.now) }
{
    push_symbols(text, b"i", &bits.inputs);
    push_symbols(text, b"l", &bits.registers);
    push_symbols(text, b"o", &bits.outputs);
    push_comment(text, names);
}

/// Appends a line for each of these names, of inputs, registers or outputs by their letter.
fn push_symbols(text: &mut Text, kind: &[u8], bits: &[Bit<'_>])
    ensures { Writes text.old text.new (flat_map symbol_text (symbols kind.now 0 bits.now)) }
{
    let mut place = 0u64;
    for bit in bits {
        push_symbol(text, kind, place, bit);
        place += 1;
    }
}

/// Appends the line of a name.
fn push_symbol(text: &mut Text, kind: &[u8], place: u64, bit: &Bit<'_>)
    ensures { Writes text.old text.new (symbol_text (record { kind = kind.now; place = place; name = bit_text bit.now })) }
{
    text.push(kind);
    text.push_number(place);
    text.push(b" ");
    push_bit(text, bit);
    text.push(b"\n");
}

/// Appends the comment.
fn push_comment(text: &mut Text, names: &Names<'_>)
    ensures { Writes text.old text.new (comment_text names.now) }
{
    text.push(b"c\n");
    push_meaning(text, names.circuit, names.meaning);
    push_meanings(text, names.inputs);
    push_meanings(text, names.registers);
    push_meanings(text, names.outputs);
}

/// Appends a line for each of these words.
fn push_meanings(text: &mut Text, words: &[Word<'_>])
    ensures { Writes text.old text.new (flat_map meaning_text words.now) }
{
    for word in words {
        push_meaning(text, word.name, word.meaning);
    }
}

/// Appends a line with a name and its meaning.
fn push_meaning(text: &mut Text, name: &str, meaning: &str)
    ensures { Writes text.old text.new (meaning_line name.now meaning.now) }
{
    text.push(name.as_bytes());
    text.push(b": ");
    text.push(meaning.as_bytes());
    text.push(b"\n");
}

/// A reader recovers the lines of names. No name may have a space, a semicolon or a newline, and indices must be below
/// 2^64. A law: it does nothing.
pub fn symbols_are_read_back()
    ensures { (s : List Symbol) → AreSymbols s → words_by_line [] [] (flat_map symbol_text s) ≡ map symbol_words s }
{}
