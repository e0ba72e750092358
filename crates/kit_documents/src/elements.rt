//! Lists whose elements have times.
ghost use Rattle.std.specs.Prelude.{ℕ, ◌≡◌, ◌⊎◌, ◌≤◌, ◌<◌, map, IfOk, IsErrOf, MatchOption, OnOk};
ghost use Rattle.toml.specs.Data.{Data};
ghost use Rattle.toml.specs.View.{view};
ghost use Rattle.document_values.specs.Demands.{AllMet, IsFirstUnmet};
ghost use Rattle.document_values.specs.Values.{ArePaired};
ghost use Rattle.kit_documents.specs.declared.elements.ElementFault.TheVariants.{Memory as OutOfMemory};
ghost use Rattle.kit_documents.specs.declared.field.KitField.{KitField as Wrong};
ghost use Rattle.kit_documents.specs.Lists.{elements_demands, time_in};

use document_values::{elements_of, whole_number};
use std::alloc::{AllocError, AllocFailed, Global};
use toml::Value;

/// What an element of a list is read into. `Lists` are the lists with such elements: cases and transcripts have their
/// own.
pub trait Element<Lists>: Sized + Drop {
    /// The element is read as this value.
    ghost says: { Data → Self → Type 0 };

    /// Returns what this element, which has this time, is read as; `None` if it is invalid.
    fn in_value(value: &Value, time: u32) -> Option<Self>
        requires { time_in (view value.now) ≡ time }
        ensures { MatchOption result ((x : Self) → ¬ says (view value.now) x) (says (view value.now)) };
}

/// Why a list is not read.
#[derive(Clone, Copy, Debug, PartialEq, Eq)]
pub enum ElementFault {
    /// The first invalid element.
    At(usize),
    Memory,
}

impl<T: Drop> From<AllocFailed<T>> for ElementFault {
    ghost from_gives = { λ _ fault. fault ≡ OutOfMemory };

    fn from(_refused: AllocFailed<T>) -> ElementFault {
        ElementFault::Memory
    }
}

impl From<AllocError> for ElementFault {
    ghost from_gives = { λ _ fault. fault ≡ OutOfMemory };

    fn from(_refused: AllocError) -> ElementFault {
        ElementFault::Memory
    }
}

/// Reads the elements of a list. Their times must be below `end`, and each at least `apart` later than the one before.
/// Otherwise `At` has the number of the first invalid element.
pub fn read_elements<Lists, T: Element<Lists>>(
    alloc: Global,
    values: &[Value],
    end: u32,
    apart: u8,
) -> Result<Vec<T>, ElementFault>
    ensures said { IfOk result (λ read. ArePaired T.says (map view values.now) read.items) }
    ensures met { (told : ℕ → Wrong) → OnOk result (AllMet (elements_demands told T.says end apart (map view values.now))) }
    ensures unmet { (told : ℕ → Wrong) (place : ℕ) → IsErrOf result (ElementFault.At place) → IsFirstUnmet (told place) (elements_demands told T.says end apart (map view values.now)) }
{
    let mut read = Vec::new(alloc);
    let mut least = 0;
    for (place, value) in values.iter().enumerate() {
        let Some(time) = time_within(value, least, end) else {
            return Err(ElementFault::At(place));
        };
        let Some(element) = T::in_value(value, time) else {
            return Err(ElementFault::At(place));
        };
        read.push(element)?;
        least = u64::from(time) + u64::from(apart);
    }
    Ok(read)
}

/// The time of an element, if it is in this range.
fn time_within(value: &Value, least: u64, end: u32) -> Option<u32>
    ensures { MatchOption result ((time_in (view value.now) < least) ⊎ (end ≤ time_in (view value.now))) (λ time. (time ≡ time_in (view value.now)) × (least ≤ time) × (time < end)) }
{
    let time = time_of(value);
    if time < least {
        return None;
    }
    if u64::from(end) <= time {
        return None;
    }
    Some(time as u32)
}

/// The time of an element: the number itself, or the first of an array. It is 0 if there is none.
fn time_of(value: &Value) -> u64
    ensures { result ≡ time_in (view value.now) }
{
    let first = match elements_of(value) {
        Some([]) => return 0,
        Some([first, ..]) => first,
        None => value,
    };
    whole_number(first).unwrap_or(0)
}
