//! Names of literals.
ghost use Rattle.std.specs.Prelude.{◌≡◌, ◌++◌, IfOk, OnOk};
ghost use Rattle.std.specs.List.{flat_map};
ghost use Rattle.can_gates.specs.Names.{bits_of_word, numbered};
ghost use Rattle.can_gates.specs.Texts.{AreBitsOf};

use std::alloc::{AllocError, Global};

/// A name of several literals, the lowest bit of their number first.
#[derive(Clone, Copy)]
pub struct Word<'a> {
    /// The name, which must be one name of Verilog.
    pub name: &'a str,
    /// How many literals have it. A single one has the name without an index.
    pub places: u32,
    /// Its meaning, in one line.
    pub meaning: &'a str,
}

/// The names in a file of a circuit.
#[derive(Clone, Copy)]
pub struct Names<'a> {
    /// The circuit's own name.
    pub circuit: &'a str,
    /// Its meaning, in one line.
    pub meaning: &'a str,
    /// Its inputs.
    pub inputs: &'a [Word<'a>],
    /// Its registers.
    pub registers: &'a [Word<'a>],
    /// Its outputs.
    pub outputs: &'a [Word<'a>],
}

/// The name of one literal.
#[derive(Clone, Copy)]
pub(crate) struct Bit<'a> {
    /// The word's name.
    pub(crate) name: &'a str,
    /// The index of the literal, if the word has several.
    pub(crate) place: Option<u32>,
}

/// The name of each literal that a file names.
#[derive(Drop)]
pub(crate) struct AllBits<'a> {
    /// Of the inputs of a circuit.
    pub(crate) inputs: Vec<Bit<'a>>,
    /// Of its registers.
    pub(crate) registers: Vec<Bit<'a>>,
    /// Of its outputs.
    pub(crate) outputs: Vec<Bit<'a>>,
}

impl<'a> AllBits<'a> {
    /// The names of the bits of these words.
    pub(crate) fn new(alloc: Global, names: &Names<'a>) -> Result<AllBits<'a>, AllocError>
        ensures { IfOk result (AreBitsOf names.now) }
    {
        Ok(AllBits {
            inputs: bits_of(alloc, names.inputs)?,
            registers: bits_of(alloc, names.registers)?,
            outputs: bits_of(alloc, names.outputs)?,
        })
    }
}

/// The name of each literal of these words.
fn bits_of<'a>(alloc: Global, words: &[Word<'a>]) -> Result<Vec<Bit<'a>>, AllocError>
    ensures { IfOk result (λ r. r.items ≡ flat_map bits_of_word words.now) }
{
    let mut bits = Vec::new(alloc);
    for word in words {
        push_bits(&mut bits, word)?;
    }
    Ok(bits)
}

/// Appends the name of each literal of a word.
fn push_bits<'a>(out: &mut Vec<Bit<'a>>, word: &Word<'a>) -> Result<(), AllocError>
    ensures { OnOk result (out.new.items ≡ out.old.items ++ bits_of_word word.now) }
{
    if word.places != 1 {
        return push_numbered(out, word);
    }
    out.push(Bit {
        name: word.name,
        place: None,
    })?;
    Ok(())
}

/// Appends the name of each literal of a word, with its index.
fn push_numbered<'a>(out: &mut Vec<Bit<'a>>, word: &Word<'a>) -> Result<(), AllocError>
    ensures { OnOk result (out.new.items ≡ out.old.items ++ numbered word.now word.now.places) }
{
    let name = word.name;
    for place in 0..word.places {
        out.push(Bit {
            name,
            place: Some(place),
        })?;
    }
    Ok(())
}
