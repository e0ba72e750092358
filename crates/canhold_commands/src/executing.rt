//! What the program does, over any streams.
ghost use Rattle.std.specs.Prelude.{◌≡◌, ◌⊎◌, ◌<◌, false, Option, Result, IsTrue};
ghost use Rattle.std.specs.Io.KnownBytes.{Appends};
ghost use Rattle.can_stream.specs.Told.{Told};
ghost use Rattle.canhold_commands.specs.Answers.{AnswersDocument, DoesChosen};
ghost use Rattle.can_program.specs.Status.{exit_status, TellsStreams};
ghost use Rattle.can_program.specs.Words.{texts_of};
ghost use Rattle.canhold_commands.specs.Status.{canhold_status};
ghost use Rattle.canhold_commands.specs.Words.{AsksCanhold, asked_of_canhold};

use crate::answering::{Finding, answer_document};
use crate::fault::CanholdFault;
use crate::help::{HELP, VERSION};
use crate::play::play_lines;
use crate::words::{Asked, Chosen, Question, read_words};
use can_program::{Program, WordsFault, conclude, conclude_of, refuse, write_help};
use can_stream::{Sink, Source};
use std::alloc::Global;

/// The program, whose faults are printed with words.
pub const CANHOLD: Program = Program {
    name: "canhold",
    explains: true,
};

/// Executes the command line, and returns the exit status. The first word is the program's name. The subcommand reads
/// `r` and writes its output to `w`. The help text and the version are written to `w`, and the line of a fault to `e`.
///
/// | Status | Line | Meaning |
/// |---|---|---|
/// | 0 | none | all was done, and all that was judged passes; some was, where it was asked for |
/// | 1 | `canhold: P2 case[3].tester[1] of start-first: must be a string of levels, such as '1*9 0101'`, `canhold: P6 long: ..` | the document or the input is refused |
/// | 1 | `canhold: transcripts differ` | all was done, and some transcript does not pass |
/// | 2 | `canhold: usage: ..` | the words are refused |
/// | 3 | `canhold: P3 read: ..`, `canhold: P4 write: ..` | `r` or `w` failed |
/// | 4 | `canhold: P5 memory: ..` | memory ran out |
/// | 5 | `canhold: nothing judged: ..` | all was done, and there was no transcript to judge |
pub fn execute<R: Source, W: Sink, E: Sink>(
    alloc: Global,
    words: &[String],
    r: &mut R,
    w: &mut W,
    e: &mut E,
) -> u8
    requires reader_unfailed { R.has_failed r.old ≡ false }
    requires reader_unended { R.has_ended r.old ≡ false }
    requires writer_unfailed { W.has_failed w.old ≡ false }
    ensures status { result < 6 }

    // What the subcommand read and wrote, for the outcome with this status.
    ensures told { (chosen : Chosen) → AsksCanhold chosen (texts_of words.now)
        → (outcome : Result (Unit {0}) CanholdFault) × (result ≡ exit_status canhold_status outcome)
        × Told R.remaining r.old r.new W.contents w.old w.new (DoesChosen chosen outcome) }

    // Status 3 is returned exactly if a stream failed.
    ensures stream_failed { result ≡ 3 → IsTrue (R.has_failed r.new) ⊎ IsTrue (W.has_failed w.new) }
    ensures write_told { IsTrue (W.has_failed w.new) → result ≡ 3 }
    ensures read_told { IsTrue (R.has_failed r.new) → result ≡ 3 }

    // The help text is written if the words ask for it. Words that ask for nothing are refused.
    ensures help_status { asked_of_canhold (texts_of words.now) ≡ Option.Some Asked.Help → (result ≡ 0) ⊎ (result ≡ 3) }
    ensures helped { asked_of_canhold (texts_of words.now) ≡ Option.Some Asked.Help → result ≡ 0
        → Appends (W.contents w.old) (W.contents w.new) HELP.now }
    ensures refused { asked_of_canhold (texts_of words.now) ≡ Option.None → result ≡ 2 }
    ensures misuse { result ≡ 2 → asked_of_canhold (texts_of words.now) ≡ Option.None }

    // The version is written if the words ask for it.
    ensures version_status { asked_of_canhold (texts_of words.now) ≡ Option.Some Asked.Version → (result ≡ 0) ⊎ (result ≡ 3) }
    ensures version_written { asked_of_canhold (texts_of words.now) ≡ Option.Some Asked.Version → result ≡ 0
        → Appends (W.contents w.old) (W.contents w.new) VERSION.now }

    // Nothing else is read or written.
    ensures untouched { result ≡ 2 → (r.new ≡ r.old) × (w.new ≡ w.old) }
    ensures help_reads_nothing { asked_of_canhold (texts_of words.now) ≡ Option.Some Asked.Help → r.new ≡ r.old }
    ensures version_reads_nothing { asked_of_canhold (texts_of words.now) ≡ Option.Some Asked.Version → r.new ≡ r.old }
    ensures no_fault_line { result ≡ 0 → e.new ≡ e.old }
{
    match read_words(words) {
        Some(Asked::Run(chosen)) => {
            let mut of = String::new(alloc);
            let outcome = answer(alloc, chosen, r, w, &mut of);
            conclude_of(CANHOLD, outcome, of.as_str(), e)
        }
        Some(Asked::Help) => conclude(CANHOLD, write_help(HELP, w), e),
        Some(Asked::Version) => conclude(CANHOLD, write_help(VERSION, w), e),
        None => refuse(CANHOLD, WordsFault::Usage, e),
    }
}

/// Executes a subcommand. If it refuses a document, `of` becomes the name of the case that the invalid field belongs
/// to.
fn answer<R: Source, W: Sink>(
    alloc: Global,
    chosen: Chosen,
    r: &mut R,
    w: &mut W,
    of: &mut String,
) -> Result<(), CanholdFault>
    requires reader_unfailed { R.has_failed r.old ≡ false }
    requires reader_unended { R.has_ended r.old ≡ false }
    requires writer_unfailed { W.has_failed w.old ≡ false }
    ensures told { Told R.remaining r.old r.new W.contents w.old w.new (DoesChosen chosen result) }
    ensures streams { TellsStreams (R.has_failed r.new) (W.has_failed w.new) (exit_status canhold_status result) }
{
    match chosen {
        Chosen::Play => Ok(play_lines(alloc, r, w)?),
        Chosen::Document(question) => answered(alloc, question, r, w, of),
    }
}

/// Writes the output for the document that is read.
fn answered<R: Source, W: Sink>(
    alloc: Global,
    question: Question,
    r: &mut R,
    w: &mut W,
    of: &mut String,
) -> Result<(), CanholdFault>
    requires reader_unfailed { R.has_failed r.old ≡ false }
    requires reader_unended { R.has_ended r.old ≡ false }
    requires writer_unfailed { W.has_failed w.old ≡ false }
    ensures told { Told R.remaining r.old r.new W.contents w.old w.new (AnswersDocument question result) }
    ensures streams { TellsStreams (R.has_failed r.new) (W.has_failed w.new) (exit_status canhold_status result) }
{
    match answer_document(alloc, question, r, w, of)? {
        Finding::Agree => Ok(()),
        Finding::Differ => Err(CanholdFault::TranscriptsDiffer),
        Finding::Nothing => Err(CanholdFault::NothingJudged),
    }
}
