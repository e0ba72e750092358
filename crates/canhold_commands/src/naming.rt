//! The name of the case that an invalid field belongs to.
ghost use Rattle.std.specs.Prelude.{IfSome};
ghost use Rattle.std.specs.String.{string_bytes};
ghost use Rattle.toml.specs.Data.{table};
ghost use Rattle.toml.specs.View.{table_view};
ghost use Rattle.canhold_commands.specs.CaseNames.{IsCaseIn, IsOfCase, NamesTable};

use crate::document::read_fields;
use document_values::{elements_or_none, field, fields_of};
use kit_documents::{KitField, LONGEST_NAME, is_name, text_of};
use std::alloc::Global;
use toml::Table;

/// Returns the name of the case that a field of a kit document belongs to, as its table or its transcript's table has
/// it.
///
/// It returns `None` in three cases:
///
/// - The field belongs to no case.
/// - The table has no name of 1 to 80 letters from a to z, digits and hyphens.
/// - An allocation failed.
pub fn case_of(alloc: Global, text: &[u8], wrong: KitField) -> Option<String>
    ensures { IfSome result (λ name. IsCaseIn text.now wrong (string_bytes name)) }
{
    let fields = read_fields(alloc, text).ok()?;
    let name = name_of(&fields, wrong)?;
    String::from_str(alloc, name).ok()
}

/// The name of the case that a field of a document belongs to.
fn name_of(fields: &Table, wrong: KitField) -> Option<&str>
    ensures { IfSome result (λ name. IsOfCase wrong (table (table_view fields.now)) name.now) }
{
    match wrong {
        KitField::Case { number, .. } => name_in(fields, "case", number, "name"),
        KitField::Transcript { number, .. } => name_in(fields, "transcript", number, "case"),
        _ => None,
    }
}

/// The name in a field of the table with this number in a list.
fn name_in<'a>(fields: &'a Table, list: &str, number: usize, part: &str) -> Option<&'a str>
    ensures { IfSome result (λ name. NamesTable list.now number part.now (table (table_view fields.now)) name.now) }
{
    let tables = elements_or_none(fields, list)?;
    let one = fields_of(tables.get(number)?)?;
    let name = text_of(field(one, part)?)?;
    if !is_name(name, LONGEST_NAME) {
        return None;
    }
    Some(name)
}
