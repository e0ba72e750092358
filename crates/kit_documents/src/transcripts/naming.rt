//! The case of a transcript.
ghost use Rattle.std.specs.Prelude.{◌≡◌, codes, map, Some, IfNone, IfSome, OnSome};
ghost use Rattle.toml.specs.Data.{table};
ghost use Rattle.toml.specs.View.{table_view, view};
ghost use Rattle.document_values.specs.Values.{named, IsRequired};
ghost use Rattle.kit_documents.specs.Cases.{case_name};
ghost use Rattle.kit_documents.specs.CaseWords.{field_text, IsText};
ghost use Rattle.kit_documents.specs.Transcripts.{place_where as place_in, IsUntold};

use crate::tables::text_of;
use crate::transcripts::known::Known;
use document_values::field;
use toml::Table;

/// The number of the case that the fields of a transcript name. It must be a known case that no earlier transcript
/// belongs to.
pub(crate) fn case_in(known: &Known<'_>, fields: &Table) -> Option<usize>
    ensures said { IfSome result (λ place. IsRequired (IsText (λ name. place_in case_name name (map view known.now.cases.now) ≡ Some place)) (named (codes "case") (table (table_view fields.now)))) }
    ensures met { OnSome result (IsRequired (IsText (IsUntold (map view known.now.cases.now) (map view known.now.earlier.now))) (named (codes "case") (table (table_view fields.now)))) }
    ensures unmet { IfNone result (¬ IsRequired (IsText (IsUntold (map view known.now.cases.now) (map view known.now.earlier.now))) (named (codes "case") (table (table_view fields.now)))) }
{
    known.place_of(text_of(field(fields, "case")?)?)
}
