//! What the program does, over any streams.
ghost use Rattle.std.specs.Prelude.{◌≡◌, ◌⊎◌, ◌<◌, false, Option, Result, IsTrue};
ghost use Rattle.std.specs.Io.KnownBytes.{Appends};
ghost use Rattle.can_stream.specs.Told.{Told};
ghost use Rattle.can_program.specs.Status.{exit_status, TellsStreams};
ghost use Rattle.can_program.specs.Words.{texts_of};
ghost use Rattle.can_plan_text.specs.Runs.{DoesAnswer, DoesTimeline};
ghost use Rattle.can_plan_text.specs.Status.{canplan_status};
ghost use Rattle.can_plan_text.specs.Words.{asked_of_canplan, message_in};

use crate::answer::Form;
use crate::answering::answer_document;
use crate::canplan_fault::CanplanFault;
use crate::drawing::write_timeline;
use crate::help::{HELP, VERSION};
use crate::words::{Asked, message_of, read_words};
use can_program::{Program, WordsFault, conclude, refuse, write_help};
use can_stream::{Sink, Source};
use std::alloc::Global;

/// The program, whose faults are printed with words.
pub const CANPLAN: Program = Program {
    name: "canplan",
    explains: true,
};

/// Does what the words ask for, and returns the exit status. The first word is the program's name. The other words
/// decide what is done:
///
/// - none: reads a network's document from `r`, and writes the output to `w`
/// - `--details`: also writes the parts of each bound
/// - `--timeline` and the name of a message: reads a document, and writes the scenario of the message's worst case
/// - the words for help and version: writes the help text, or the version, to `w`
///
/// The line of a fault is written to `e`.
///
/// | Status | Line | Why |
/// |---|---|---|
/// | 0 | none | all was done, and each message is sure to meet its deadline, if the answer was asked for |
/// | 1 | `canplan: P2 message[3].period: must be at least one bit time, at most 4294967295` | the document is refused |
/// | 1 | `canplan: message unknown: ..` | no message of the network has the name |
/// | 1 | `canplan: timeline too long: ..` | no scenario is long enough for the worst case of the message |
/// | 1 | `canplan: deadlines missed` | all was done, and some message is not sure to |
/// | 2 | `canplan: usage: ..` | the words are refused |
/// | 3 | `canplan: P3 read: ..`, `canplan: P4 write: ..` | `r` or `w` failed |
/// | 4 | `canplan: P5 memory: ..` | memory ran out |
pub fn execute<R: Source, W: Sink, E: Sink>(
    alloc: Global,
    words: &[String],
    r: &mut R,
    w: &mut W,
    e: &mut E,
) -> u8
    requires reader_unfailed { R.has_failed r.old ≡ false }
    requires reader_unended { R.has_ended r.old ≡ false }
    requires writer_unfailed { W.has_failed w.old ≡ false }
    ensures status { result < 5 }

    // What was written for what was read, for the outcome that the status stands for.
    ensures told { asked_of_canplan (texts_of words.now) ≡ Option.Some Asked.Answer
        → (outcome : Result (Unit {0}) CanplanFault) × (result ≡ exit_status canplan_status outcome)
        × Told R.remaining r.old r.new W.contents w.old w.new (DoesAnswer Form.Brief outcome) }
    ensures detailed { asked_of_canplan (texts_of words.now) ≡ Option.Some Asked.Details
        → (outcome : Result (Unit {0}) CanplanFault) × (result ≡ exit_status canplan_status outcome)
        × Told R.remaining r.old r.new W.contents w.old w.new (DoesAnswer Form.Detailed outcome) }
    ensures drawn { asked_of_canplan (texts_of words.now) ≡ Option.Some Asked.Timeline
        → (outcome : Result (Unit {0}) CanplanFault) × (result ≡ exit_status canplan_status outcome)
        × Told R.remaining r.old r.new W.contents w.old w.new (DoesTimeline (message_in (texts_of words.now)) outcome) }

    // The status is 3 exactly if a stream failed.
    ensures stream_failed { result ≡ 3 → IsTrue (R.has_failed r.new) ⊎ IsTrue (W.has_failed w.new) }
    ensures write_told { IsTrue (W.has_failed w.new) → result ≡ 3 }
    ensures read_told { IsTrue (R.has_failed r.new) → result ≡ 3 }

    // Help is written if the words ask for it, and other words are refused.
    ensures help_status { asked_of_canplan (texts_of words.now) ≡ Option.Some Asked.Help → (result ≡ 0) ⊎ (result ≡ 3) }
    ensures helped { asked_of_canplan (texts_of words.now) ≡ Option.Some Asked.Help → result ≡ 0
        → Appends (W.contents w.old) (W.contents w.new) HELP.now }
    ensures refused { asked_of_canplan (texts_of words.now) ≡ Option.None → result ≡ 2 }
    ensures misuse { result ≡ 2 → asked_of_canplan (texts_of words.now) ≡ Option.None }

    // The version is written if the words ask for it.
    ensures version_status { asked_of_canplan (texts_of words.now) ≡ Option.Some Asked.Version → (result ≡ 0) ⊎ (result ≡ 3) }
    ensures version_written { asked_of_canplan (texts_of words.now) ≡ Option.Some Asked.Version → result ≡ 0
        → Appends (W.contents w.old) (W.contents w.new) VERSION.now }

    // Nothing else is read or written.
    ensures untouched { result ≡ 2 → (r.new ≡ r.old) × (w.new ≡ w.old) }
    ensures help_reads_nothing { asked_of_canplan (texts_of words.now) ≡ Option.Some Asked.Help → r.new ≡ r.old }
    ensures version_reads_nothing { asked_of_canplan (texts_of words.now) ≡ Option.Some Asked.Version → r.new ≡ r.old }
    ensures no_fault_line { result ≡ 0 → e.new ≡ e.old }
{
    match read_words(words) {
        Some(Asked::Answer) => conclude(CANPLAN, answer(alloc, Form::Brief, r, w), e),
        Some(Asked::Details) => conclude(CANPLAN, answer(alloc, Form::Detailed, r, w), e),
        Some(Asked::Timeline) => conclude(CANPLAN, draw(alloc, message_of(words), r, w), e),
        Some(Asked::Help) => conclude(CANPLAN, write_help(HELP, w), e),
        Some(Asked::Version) => conclude(CANPLAN, write_help(VERSION, w), e),
        None => refuse(CANPLAN, WordsFault::Usage, e),
    }
}

/// Writes the output for the document from the reader, in this form.
fn answer<R: Source, W: Sink>(
    alloc: Global,
    form: Form,
    r: &mut R,
    w: &mut W,
) -> Result<(), CanplanFault>
    requires reader_unfailed { R.has_failed r.old ≡ false }
    requires reader_unended { R.has_ended r.old ≡ false }
    requires writer_unfailed { W.has_failed w.old ≡ false }
    ensures told { Told R.remaining r.old r.new W.contents w.old w.new (DoesAnswer form result) }
    ensures streams { TellsStreams (R.has_failed r.new) (W.has_failed w.new) (exit_status canplan_status result) }
{
    match answer_document(alloc, form, r, w)? {
        0 => Ok(()),
        _ => Err(CanplanFault::DeadlinesMissed),
    }
}

/// Writes the scenario of the worst case of the message with this name, for the document from the reader.
fn draw<R: Source, W: Sink>(
    alloc: Global,
    message: &str,
    r: &mut R,
    w: &mut W,
) -> Result<(), CanplanFault>
    requires reader_unfailed { R.has_failed r.old ≡ false }
    requires reader_unended { R.has_ended r.old ≡ false }
    requires writer_unfailed { W.has_failed w.old ≡ false }
    ensures told { Told R.remaining r.old r.new W.contents w.old w.new (DoesTimeline message.now result) }
    ensures streams { TellsStreams (R.has_failed r.new) (W.has_failed w.new) (exit_status canplan_status result) }
{
    write_timeline(alloc, message, r, w)?;
    Ok(())
}
