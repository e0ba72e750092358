//! The name of a case.
ghost use Rattle.std.specs.List.{list_any};
ghost use Rattle.std.specs.Prelude.{◌≡◌, ◌≢◌, ◌↔◌, ℕ, List, ◌∷◌, ◌++◌, codes, map, Some, IfNone, IfOk, IfSome, IsErrOf, IsTrue, MatchBool, OnOk, OnSome};
ghost use Rattle.toml.specs.Data.{same_key, string, table};
ghost use Rattle.toml.specs.View.{table_view, view};
ghost use Rattle.kit_documents.specs.declared.field.KitField.{KitField as Wrong};
ghost use Rattle.document_values.specs.Demands.{AllMet, IsFirstUnmet};
ghost use Rattle.document_values.specs.Values.{named, IsOptional, IsRequired};
ghost use Rattle.kit_documents.specs.Names.{IsKitName};
ghost use Rattle.kit_documents.specs.CaseWords.{IsPurpose, IsText};
ghost use Rattle.kit_documents.specs.Cases.{case_name, case_naming_demands, IsNewCaseName};

use crate::cases::earlier::Earlier;
use crate::cases::words::is_purpose;
use crate::fault::KitFault;
use crate::field::CaseField;
use crate::tables::{is_of_version_one, text_of};
use crate::words::events::behind;
use crate::words::names::{LONGEST_NAME, is_name};
use document_values::field;
use toml::Table;

/// The name of a family has at most this number of bytes.
const LONGEST_FAMILY: usize = 40;

/// Reads the name of the case with this number from its fields, after these cases.
pub(crate) fn read_name<'a>(
    earlier: &Earlier<'_>,
    number: usize,
    fields: &'a Table,
) -> Result<&'a str, KitFault>
    ensures said { IfOk result (λ name. named (codes "name") (table (table_view fields.now)) ≡ Some (string name.now)) }
    ensures met { OnOk result (AllMet (case_naming_demands (map view earlier.now.tables.now) number (table (table_view fields.now)))) }
    ensures unmet { (wrong : Wrong) → IsErrOf result (KitFault.Field wrong) → IsFirstUnmet wrong (case_naming_demands (map view earlier.now.tables.now) number (table (table_view fields.now))) }
{
    if !is_of_version_one(fields) {
        return Err(KitFault::in_case(number, CaseField::Version));
    }
    let Some(family) = family_in(fields) else {
        return Err(KitFault::in_case(number, CaseField::Family));
    };
    let Some(name) = name_in(fields, family, earlier) else {
        return Err(KitFault::in_case(number, CaseField::Name));
    };
    if !has_purpose(fields) {
        return Err(KitFault::in_case(number, CaseField::Purpose));
    }
    Ok(name)
}

/// The family in the fields of a case.
fn family_in(fields: &Table) -> Option<&str>
    ensures said { IfSome result (λ family. named (codes "family") (table (table_view fields.now)) ≡ Some (string family.now)) }
    ensures met { OnSome result (IsRequired (IsText (IsKitName 40)) (named (codes "family") (table (table_view fields.now)))) }
    ensures unmet { IfNone result (¬ IsRequired (IsText (IsKitName 40)) (named (codes "family") (table (table_view fields.now)))) }
{
    let family = text_of(field(fields, "family")?)?;
    if !is_name(family, LONGEST_FAMILY) {
        return None;
    }
    Some(family)
}

/// The name in the fields of a case of this family, if none of these cases has it.
fn name_in<'a>(fields: &'a Table, family: &str, earlier: &Earlier<'_>) -> Option<&'a str>
    ensures said { IfSome result (λ name. named (codes "name") (table (table_view fields.now)) ≡ Some (string name.now)) }
    ensures met { OnSome result (IsRequired (IsText (IsNewCaseName (map view earlier.now.tables.now) family.now)) (named (codes "name") (table (table_view fields.now)))) }
    ensures unmet { IfNone result (¬ IsRequired (IsText (IsNewCaseName (map view earlier.now.tables.now) family.now)) (named (codes "name") (table (table_view fields.now)))) }
{
    let name = text_of(field(fields, "name")?)?;
    if !is_new_name(earlier, family, name) {
        return None;
    }
    Some(name)
}

/// Whether this is a name of a case of the family that none of these cases has.
fn is_new_name(earlier: &Earlier<'_>, family: &str, name: &str) -> bool
    ensures { IsTrue result ↔ IsNewCaseName (map view earlier.now.tables.now) family.now name.now }
{
    is_name(name, LONGEST_NAME)
        && begins_with(name.as_bytes(), family.as_bytes())
        && !earlier.have(name)
}

/// Whether a name begins with the family and a hyphen.
fn begins_with(name: &[u8], family: &[u8]) -> bool
    ensures { MatchBool result ((rest : List ℕ) × (name.now ≡ family.now ++ (45 ∷ rest))) ((rest : List ℕ) → name.now ≢ family.now ++ (45 ∷ rest)) }
{
    match behind(name, family) {
        Some(rest) => begins_with_hyphen(rest),
        None => false,
    }
}

/// Whether a text begins with a hyphen.
fn begins_with_hyphen(text: &[u8]) -> bool
    ensures { MatchBool result ((rest : List ℕ) × (text.now ≡ 45 ∷ rest)) ((rest : List ℕ) → text.now ≢ 45 ∷ rest) }
{
    match behind(text, b"-") {
        Some(_) => true,
        None => false,
    }
}

/// Whether the purpose of a case is one line of at most 200 bytes, or left out.
fn has_purpose(fields: &Table) -> bool
    ensures { MatchBool result (IsOptional (IsText IsPurpose) (named (codes "purpose") (table (table_view fields.now)))) (¬ IsOptional (IsText IsPurpose) (named (codes "purpose") (table (table_view fields.now)))) }
{
    let Some(value) = field(fields, "purpose") else {
        return true;
    };
    match text_of(value) {
        Some(text) => is_purpose(text),
        None => false,
    }
}
