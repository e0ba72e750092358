//! A transcript as a table of a document.
ghost use Rattle.std.specs.Prelude.{◌≡◌, ◌++◌, OnOk};
ghost use Rattle.canhold_commands.specs.Transcripts.{counters_elements, drove_line, end_line, transcript_head, transcript_text, where_told};

use crate::elements::push_list;
use can_frame::Level;
use can_terms::{Counters, Ending, Transcript};
use document_values::{push_number, push_text};
use kit_documents::{push_levels, push_state};
use std::alloc::AllocError;

/// Appends the table of a transcript, for the case with this name. The levels are in one string. Events, counters and
/// the end have no line if they are left out. The first line is empty, so that tables can follow one another.
pub fn push_transcript(
    out: &mut Vec<u8>,
    name: &[u8],
    transcript: &Transcript,
) -> Result<(), AllocError>
    ensures { OnOk result (out.new.items ≡ out.old.items ++ transcript_text name.now transcript.now) }
{
    push_head(out, name)?;
    push_drove(out, &transcript.drove)?;
    push_list(out, b"events", &transcript.events)?;
    push_list(out, b"counters", &transcript.counters)?;
    push_end(out, &transcript.end)
}

/// Appends the lines from the first to the name.
#[tactic(auto, unfolding(crate::specs::Transcripts::transcript_head))]
fn push_head(out: &mut Vec<u8>, name: &[u8]) -> Result<(), AllocError>
    ensures { OnOk result (out.new.items ≡ out.old.items ++ transcript_head name.now) }
{
    push_between(
        out,
        b"\n[[transcript]]\nversion = 1\ncase = \"",
        name,
        b"\"\n",
    )
}

/// Appends bytes, with these before and after them.
fn push_between(
    out: &mut Vec<u8>,
    before: &[u8],
    text: &[u8],
    behind: &[u8],
) -> Result<(), AllocError>
    ensures { OnOk result (out.new.items ≡ out.old.items ++ (before.now ++ (text.now ++ behind.now))) }
{
    push_text(out, before)?;
    push_text(out, text)?;
    push_text(out, behind)
}

/// Appends the line of the levels.
fn push_drove(out: &mut Vec<u8>, levels: &[Level]) -> Result<(), AllocError>
    ensures { OnOk result (out.new.items ≡ out.old.items ++ drove_line levels.now) }
{
    if levels.is_empty() {
        return push_text(out, b"drove = []\n");
    }
    push_text(out, b"drove = [\"")?;
    push_levels(out, levels)?;
    push_text(out, b"\"]\n")
}

/// Appends the line of the end; nothing if it is left out.
fn push_end(out: &mut Vec<u8>, end: &Option<Ending>) -> Result<(), AllocError>
    ensures { OnOk result (out.new.items ≡ out.old.items ++ where_told end_line end.now) }
{
    let Some(end) = end else {
        return Ok(());
    };
    push_text(out, b"end = [\"")?;
    push_state(out, end.state)?;
    push_text(out, b"\", ")?;
    push_counters(out, end.counters)?;
    push_text(out, b"]\n")
}

/// Appends TEC and REC, as elements of an array.
pub(crate) fn push_counters(out: &mut Vec<u8>, counters: Counters) -> Result<(), AllocError>
    ensures { OnOk result (out.new.items ≡ out.old.items ++ counters_elements counters) }
{
    push_number(out, u64::from(counters.transmit))?;
    push_text(out, b", ")?;
    push_number(out, u64::from(counters.receive))
}
