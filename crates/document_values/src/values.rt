//! Fields, numbers, truth values, arrays and frames.
ghost use Rattle.std.specs.Prelude.{◌≡◌, ◌≤◌, ℕ, map, option_map, IfSome, IfNone, MatchOption, OnSome};
ghost use Rattle.std.specs.List.{list_any};
ghost use Rattle.toml.specs.Data.{Data, same_key, table};
ghost use Rattle.toml.specs.View.{view, table_view};
ghost use Rattle.document_values.specs.Values.{are_known, elements_in, elements, named, three, two, IsArray, IsFrameValue, IsNumber, IsOptional, IsRequired, IsTable, IsTruthValue, IsUpTo, SaysFrame, SaysNumber, SaysWhether};

use can_frame::Frame;
use toml::{Table, Value};

/// Returns the field with this name, if there is one.
pub fn field<'a>(fields: &'a Table, name: &str) -> Option<&'a Value>
    ensures { option_map (λ v. view v.now) result ≡ named name.now (table (table_view fields.now)) }
{
    fields.get(name)
}

/// Returns whether each of the fields has one of these names.
pub fn has_only(fields: &Table, names: &[&str]) -> bool
    ensures { result ≡ are_known (map (λ name. name.now) names.now) (table_view fields.now) }
{
    fields.keys().all(|key| is_among(key.as_str(), names))
}

/// Whether the name is one of these.
fn is_among(name: &str, names: &[&str]) -> bool
    ensures { result ≡ list_any (same_key name.now) (map (λ known. known.now) names.now) }
{
    names.iter().any(|known| name == *known)
}

/// Returns the fields of a table.
pub fn fields_of(value: &Value) -> Option<&Table>
    ensures said { IfSome result (λ fields. view value.now ≡ table (table_view fields.now)) }
    ensures unmet { IfNone result (¬ IsTable (view value.now)) }
{
    value.as_table()
}

/// Returns the elements of an array.
pub fn elements_of(value: &Value) -> Option<&[Value]>
    ensures said { IfSome result (λ values. map view values.now ≡ elements (view value.now)) }
    ensures met { OnSome result (IsArray (view value.now)) }
    ensures unmet { IfNone result (¬ IsArray (view value.now)) }
{
    Some(value.as_array()?.as_slice())
}

/// Returns the elements of a field that is an array; none if it is left out.
pub fn elements_or_none<'a>(fields: &'a Table, name: &str) -> Option<&'a [Value]>
    ensures said { IfSome result (λ values. map view values.now ≡ elements_in (named name.now (table (table_view fields.now)))) }
    ensures met { OnSome result (IsOptional IsArray (named name.now (table (table_view fields.now)))) }
    ensures unmet { IfNone result (¬ IsOptional IsArray (named name.now (table (table_view fields.now)))) }
{
    match field(fields, name) {
        Some(value) => elements_of(value),
        None => Some(&[]),
    }
}

/// Returns the two values of an array of two.
pub fn two_of(value: &Value) -> Option<(&Value, &Value)>
    ensures said { IfSome result (λ both. view value.now ≡ two (view both.0.now) (view both.1.now)) }
    ensures unmet { IfNone result ((a b : Data) → ¬ (view value.now ≡ two a b)) }
{
    match elements_of(value)? {
        [first, second] => Some((first, second)),
        _ => None,
    }
}

/// Returns the three values of an array of three.
pub fn three_of(value: &Value) -> Option<(&Value, &Value, &Value)>
    ensures said { IfSome result (λ all. view value.now ≡ three (view all.0.now) (view all.1.now) (view all.2.now)) }
    ensures unmet { IfNone result ((a b c : Data) → ¬ (view value.now ≡ three a b c)) }
{
    match elements_of(value)? {
        [first, second, third] => Some((first, second, third)),
        _ => None,
    }
}

/// Returns the number, if the value is a whole number of at least 0.
pub fn whole_number(value: &Value) -> Option<u64>
    ensures { MatchOption result ((n : ℕ) → ¬ IsNumber n (view value.now)) (λ n. IsNumber n (view value.now)) }
{
    u64::try_from(value.as_integer()?).ok()
}

/// Returns the number, if the value is a whole number from 0 to the limit.
pub fn number(value: &Value, limit: u64) -> Option<u64>
    ensures said { IfSome result (λ n. IsNumber n (view value.now)) }
    ensures within { IfSome result (λ n. n ≤ limit) }
    ensures unmet { IfNone result (¬ IsUpTo limit (view value.now)) }
{
    let number = whole_number(value)?;
    (number <= limit).then_some(number)
}

/// Returns the number of a required field, if it is a whole number from 0 to the limit.
pub fn required_number(fields: &Table, name: &str, limit: u64) -> Option<u64>
    ensures said { IfSome result (λ n. IsRequired (IsNumber n) (named name.now (table (table_view fields.now)))) }
    ensures within { IfSome result (λ n. n ≤ limit) }
    ensures met { OnSome result (IsRequired (IsUpTo limit) (named name.now (table (table_view fields.now)))) }
    ensures unmet { IfNone result (¬ IsRequired (IsUpTo limit) (named name.now (table (table_view fields.now)))) }
{
    number(field(fields, name)?, limit)
}

/// Returns the number of a field, if it is a whole number from 0 to the limit; `usual` if the field is left out.
pub fn number_or(fields: &Table, name: &str, usual: u64, limit: u64) -> Option<u64>
    requires { usual ≤ limit }
    ensures said { IfSome result (SaysNumber usual (named name.now (table (table_view fields.now)))) }
    ensures within { IfSome result (λ n. n ≤ limit) }
    ensures met { OnSome result (IsOptional (IsUpTo limit) (named name.now (table (table_view fields.now)))) }
    ensures unmet { IfNone result (¬ IsOptional (IsUpTo limit) (named name.now (table (table_view fields.now)))) }
{
    match field(fields, name) {
        Some(value) => number(value, limit),
        None => Some(usual),
    }
}

/// Returns the truth value of a field; false if it is left out.
pub fn truth(fields: &Table, name: &str) -> Option<bool>
    ensures said { IfSome result (SaysWhether (named name.now (table (table_view fields.now)))) }
    ensures met { OnSome result (IsOptional IsTruthValue (named name.now (table (table_view fields.now)))) }
    ensures unmet { IfNone result (¬ IsOptional IsTruthValue (named name.now (table (table_view fields.now)))) }
{
    match field(fields, name) {
        Some(value) => value.as_bool(),
        None => Some(false),
    }
}

/// Returns the frame, if the value is the text of one.
pub fn frame(value: &Value) -> Option<Frame>
    ensures said { IfSome result (SaysFrame (view value.now)) }
    ensures met { OnSome result (IsFrameValue (view value.now)) }
    ensures unmet { IfNone result (¬ IsFrameValue (view value.now)) }
{
    Frame::from_text(value.as_str()?.as_bytes()).ok()
}
