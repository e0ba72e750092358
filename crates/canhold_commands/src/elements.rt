//! The lists of a transcript, one element a line.
ghost use Rattle.std.specs.Prelude.{ℕ, ◌≡◌, ◌++◌, List, OnOk};
ghost use Rattle.canhold_commands.specs.Transcripts.{counters_element, element_lines, event_element, list_text, where_told};

use crate::transcript::push_counters;
use can_terms::{Counters, Event, Timed};
use document_values::{push_number, push_text};
use kit_documents::push_event;
use std::alloc::AllocError;

/// An element of a list.
pub(crate) trait Element: Sized {
    /// The element, without the brackets around it.
    ghost text: { Self → List ℕ };

    /// Appends the element.
    fn push_to(&self, out: &mut Vec<u8>) -> Result<(), AllocError>
        ensures { OnOk result (out.new.items ≡ out.old.items ++ text self.now) };
}

impl Element for Timed<Event> {
    ghost text = { event_element };

    fn push_to(&self, out: &mut Vec<u8>) -> Result<(), AllocError> {
        push_number(out, u64::from(self.time))?;
        push_text(out, b", \"")?;
        push_event(out, &self.told)?;
        push_text(out, b"\"")
    }
}

impl Element for Timed<Counters> {
    ghost text = { counters_element };

    fn push_to(&self, out: &mut Vec<u8>) -> Result<(), AllocError> {
        push_number(out, u64::from(self.time))?;
        push_text(out, b", ")?;
        push_counters(out, self.told)
    }
}

/// Appends a list with its key; nothing if it is left out.
pub(crate) fn push_list<T: Element>(
    out: &mut Vec<u8>,
    key: &[u8],
    list: &Option<Vec<T>>,
) -> Result<(), AllocError>
    ensures { OnOk result (out.new.items ≡ out.old.items ++ where_told (λ list. list_text key.now T.text list.items) list.now) }
{
    let Some(list) = list else {
        return Ok(());
    };
    push_text(out, key)?;
    if list.is_empty() {
        return push_text(out, b" = []\n");
    }
    push_text(out, b" = [\n")?;
    push_elements(out, list)?;
    push_text(out, b"]\n")
}

/// Appends the elements.
fn push_elements<T: Element>(out: &mut Vec<u8>, list: &[T]) -> Result<(), AllocError>
    ensures { OnOk result (out.new.items ≡ out.old.items ++ element_lines T.text list.now) }
{
    for element in list {
        push_text(out, b"    [")?;
        element.push_to(out)?;
        push_text(out, b"],\n")?;
    }
    Ok(())
}
