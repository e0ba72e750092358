//! Levels in strings.
ghost use Rattle.std.specs.Prelude.{ℕ, ◌≡◌, ◌≤◌, List, false, map, length, true, IfOk, IsErrOf, OnOk};
ghost use Rattle.toml.specs.View.{view};
ghost use Rattle.can_frame.specs.declared.level.Level.{Level as LevelSaid};
ghost use Rattle.document_values.specs.Demands.{AllMet, IsFirstUnmet};
ghost use Rattle.kit_documents.specs.declared.field.KitField.{KitField as Wrong};
ghost use Rattle.kit_documents.specs.LevelTexts.{AddsLevels};
ghost use Rattle.kit_documents.specs.Lists.{strings_demands, SaysString, SayUpTo};

use crate::elements::ElementFault;
use crate::tables::text_of;
use crate::words::reading::read_levels;
use can_frame::Level;
use std::alloc::{AllocError, Global};
use toml::Value;

/// A list of levels has at most this number of strings.
pub(crate) const MOST_STRINGS: usize = 4096;

/// Reads strings of levels, one after another, and keeps at most the first `most` levels. The others are read too, so
/// that an invalid string is reported wherever it is: `At` has the number of the first one.
pub fn read_strings(
    alloc: Global,
    most: usize,
    values: &[Value],
) -> Result<Vec<Level>, ElementFault>
    ensures said { IfOk result (λ levels. SayUpTo most (map view values.now) levels.items) }
    ensures few { IfOk result (λ levels. length levels.items ≤ most) }
    ensures met { (told : ℕ → Wrong) → OnOk result (AllMet (strings_demands told (map view values.now))) }
    ensures unmet { (told : ℕ → Wrong) (place : ℕ) → IsErrOf result (ElementFault.At place) → IsFirstUnmet (told place) (strings_demands told (map view values.now)) }
{
    let mut levels = Vec::new(alloc);
    for (place, value) in values.iter().enumerate() {
        if !read_string(&mut levels, most, value)? {
            return Err(ElementFault::At(place));
        }
    }
    Ok(levels)
}

/// Appends the levels of a string until there are `most`. Returns whether it is a text of levels.
fn read_string(levels: &mut Vec<Level>, most: usize, value: &Value) -> Result<bool, AllocError>
    requires { length levels.old.items ≤ most }
    ensures said { IfOk result (λ said. said ≡ true → AddsLevels (SaysString (view value.now)) most levels.old.items levels.new.items) }
    ensures none { IfOk result (λ said. said ≡ false → (read : List LevelSaid) → ¬ SaysString (view value.now) read) }
    ensures few { IfOk result (λ said. length levels.new.items ≤ most) }
{
    match text_of(value) {
        Some(text) => read_levels(levels, most, text),
        None => Ok(false),
    }
}
