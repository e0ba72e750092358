//! What tables of cases and of transcripts have in common.
ghost use Rattle.std.specs.Prelude.{ℕ, ◌≡◌, ◌≢◌, List, codes, map, IfNone, IfSome, MatchBool, MatchOption, OnSome};
ghost use Rattle.toml.specs.Data.{string, table};
ghost use Rattle.toml.specs.View.{table_view, view};
ghost use Rattle.document_values.specs.Values.{elements, named, IsNumber, IsRequired};
ghost use Rattle.kit_documents.specs.CaseWords.{field_text};
ghost use Rattle.kit_documents.specs.Lists.{IsArrayOf};

use document_values::{elements_of, field, fields_of, required_number};
use toml::{Table, Value};

/// Returns whether the field `version` of a table is 1.
pub fn is_of_version_one(fields: &Table) -> bool
    ensures { MatchBool result (IsRequired (IsNumber 1) (named (codes "version") (table (table_view fields.now)))) (¬ IsRequired (IsNumber 1) (named (codes "version") (table (table_view fields.now)))) }
{
    match required_number(fields, "version", 1) {
        Some(number) => number == 1,
        None => false,
    }
}

/// Returns the text of a string; `None` if the value is not a string.
pub fn text_of(value: &Value) -> Option<&str>
    ensures { MatchOption result ((text : List ℕ) → view value.now ≢ string text) (λ text. view value.now ≡ string text.now) }
{
    value.as_str()
}

/// The text of the field with this name. It is empty if there is none, or if the field is not a string.
pub(crate) fn text_said<'a>(value: &'a Value, key: &str) -> &'a str
    ensures { result.now ≡ field_text (named key.now (view value.now)) }
{
    let Some(fields) = fields_of(value) else {
        return "";
    };
    let Some(said) = field(fields, key) else {
        return "";
    };
    text_of(said).unwrap_or("")
}

/// The elements of an array of at least `least` and at most `most`.
pub(crate) fn array_of(value: &Value, least: usize, most: usize) -> Option<&[Value]>
    ensures said { IfSome result (λ values. map view values.now ≡ elements (view value.now)) }
    ensures met { OnSome result (IsArrayOf least most (view value.now)) }
    ensures unmet { IfNone result (¬ IsArrayOf least most (view value.now)) }
{
    let values = elements_of(value)?;
    (least <= values.len() && values.len() <= most).then_some(values)
}
