//! Literals and names as texts.
ghost use Rattle.std.specs.Prelude.{◌≡◌, ◌++◌, codes, decimal};
ghost use Rattle.can_gates.specs.Names.{bit_text, place_text};
ghost use Rattle.can_gates.specs.Statements.{literal_text};
ghost use Rattle.can_gates.specs.Texts.{Writes};

use crate::files::text::Text;
use crate::files::words::Bit;
use crate::literal::Literal;

/// Appends the signal of a literal, after a `~` if it is negated.
pub(crate) fn push_literal(text: &mut Text, literal: Literal)
    ensures { Writes text.old text.new (literal_text literal) }
{
    let sign: &[u8] = if literal.negated { b"~n" } else { b"n" };
    text.push(sign);
    text.push_number(u64::from(literal.signal));
}

/// Appends the name of a literal.
pub(crate) fn push_bit(text: &mut Text, bit: &Bit<'_>)
    ensures { Writes text.old text.new (bit_text bit.now) }
{
    text.push(bit.name.as_bytes());
    push_place(text, bit.place);
}

/// Appends the index after a name, if there is one.
fn push_place(text: &mut Text, place: Option<u32>)
    ensures { Writes text.old text.new (place_text place) }
{
    if let Some(place) = place {
        push_index(text, place);
    }
}

/// Appends an index in brackets.
fn push_index(text: &mut Text, place: u32)
    ensures { Writes text.old text.new (codes "[" ++ (decimal place ++ codes "]")) }
{
    text.push(b"[");
    text.push_number(u64::from(place));
    text.push(b"]");
}
