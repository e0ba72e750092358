//! What the program does, over any streams.
ghost use Rattle.std.specs.Prelude.{◌≡◌, ◌⊎◌, ◌<◌, ◌∷◌, [], false, IsTrue, IsFalse, List, ℕ};
ghost use Rattle.std.specs.Io.KnownBytes.{Appends, IsAtEnd};
ghost use Rattle.can_stream.specs.Told.{Told};
ghost use Rattle.canbit_commands.specs.Answers.{AnswersAll, AnswersEnded, BeginsAnswering, HasBadByte, RefusesInput};
ghost use Rattle.canbit_commands.specs.Ends.{Ends};
ghost use Rattle.canbit_commands.specs.Status.{canbit_status};
ghost use Rattle.can_program.specs.Status.{exit_status};
ghost use Rattle.canbit_commands.specs.Subcommands.{name_of};
ghost use Rattle.can_program.specs.Words.{texts_of};
ghost use Rattle.canbit_commands.specs.Words.{AsksFor, AsksForHelp, AsksForOne, IsMisuse};

use crate::fault::CanbitFault;
use crate::run::run;
use crate::subcommands::Chosen;
use crate::words::{WordFault, chosen};
use can_program::{Program, WordsFault, conclude, refuse, write_help};
use can_stream::{Sink, Source};
use can_texts::{check_lines, decode_stream, encode_lines};
use std::alloc::Global;

/// The program, whose faults are printed as codes alone.
pub const CANBIT: Program = Program {
    name: "canbit",
    explains: false,
};

/// Does what the words ask for, and returns the exit status. The first word is the program's name. The
/// call reads the words first, then `r`. It writes the output or the help text to `w`, and the line of
/// a fault to `e`.
///
/// | Status | Line | Why |
/// |---|---|---|
/// | 0 | none | all was done |
/// | 1 | `canbit: P1 byte 3`, `canbit: P2 port[0].log`, `canbit: P6 long`, `canbit: P7 line 2 X4 at 9` | the input is refused |
/// | 1 | `canbit: vectors differ` | all vectors were checked, and not all passed |
/// | 2 | `canbit: usage` | the words are refused |
/// | 3 | `canbit: P3 read`, `canbit: P4 write` | `r` or `w` failed |
/// | 4 | `canbit: P5 memory` | memory ran out, when the words were read or in `run` |
pub fn execute<R: Source, W: Sink, E: Sink>(
    alloc: Global,
    words: &[String],
    r: &mut R,
    w: &mut W,
    e: &mut E,
) -> u8
    requires reader_unfailed { R.has_failed r.old ≡ false }
    requires reader_unended { R.has_ended r.old ≡ false }
    requires writer_unfailed { W.has_failed w.old ≡ false }
    ensures status { result < 5 }

    // The program's name, whatever it is, and the name of a subcommand ask for that subcommand.
    ensures alone { (name : List ℕ) (chosen : Chosen)
        → texts_of words.now ≡ name ∷ name_of chosen ∷ [] → AsksFor chosen (texts_of words.now) }

    // What the subcommand has written for what it read.
    ensures all_done { result ≡ 0 → (chosen : Chosen) → AsksFor chosen (texts_of words.now)
        → Told R.remaining r.old r.new W.contents w.old w.new (AnswersAll chosen) }
    ensures all_read { result ≡ 0 → AsksForOne (texts_of words.now)
        → IsTrue (R.has_ended r.new) × IsAtEnd (R.remaining r.new) }
    ensures input_refused { result ≡ 1 → (chosen : Chosen) × AsksFor chosen (texts_of words.now)
        × Told R.remaining r.old r.new W.contents w.old w.new (RefusesInput chosen (R.has_ended r.new)) }
    ensures reader_failed { result ≡ 3 → IsFalse (W.has_failed w.new)
        → (chosen : Chosen) × AsksFor chosen (texts_of words.now)
        × Told R.remaining r.old r.new W.contents w.old w.new (AnswersEnded chosen) }
    ensures writer_failed { IsTrue (W.has_failed w.new) → (chosen : Chosen) → AsksFor chosen (texts_of words.now)
        → Told R.remaining r.old r.new W.contents w.old w.new (BeginsAnswering chosen (R.has_ended r.new)) }

    // The status is 3 exactly if a stream failed, except that it may be 1 if a bad byte came before the
    // reader failed.
    ensures stream_failed { result ≡ 3 → IsTrue (R.has_failed r.new) ⊎ IsTrue (W.has_failed w.new) }
    ensures write_told { IsTrue (W.has_failed w.new) → result ≡ 3 }
    ensures read_told { IsTrue (R.has_failed r.new) → (result ≡ 3)
        ⊎ ((result ≡ 1) × ((chosen : Chosen) × AsksFor chosen (texts_of words.now) × ((place : ℕ)
        × Told R.remaining r.old r.new W.contents w.old w.new (HasBadByte chosen place)))) }

    // Help is written only if the words ask for it.
    ensures helped { result ≡ 0 → AsksForOne (texts_of words.now)
        ⊎ (AsksForHelp (texts_of words.now)
        × ((text : List ℕ) × Appends (W.contents w.old) (W.contents w.new) text)) }
    ensures words_refused { result ≡ 2 → IsMisuse (texts_of words.now) }

    // Nothing else is read or written.
    ensures only_subcommands_read { AsksForOne (texts_of words.now) ⊎ (r.new ≡ r.old) }
    ensures untouched { result ≡ 2 → (r.new ≡ r.old) × (w.new ≡ w.old) }
    ensures unwritten { result ≡ 4 → w.new ≡ w.old }
    ensures unread { result ≡ 4 → (r.new ≡ r.old) ⊎ AsksFor Chosen.Run (texts_of words.now) }
    ensures no_fault_line { result ≡ 0 → e.new ≡ e.old }
{
    match chosen(alloc, words) {
        Ok(chosen) => conclude(CANBIT, answer(alloc, chosen, r, w), e),
        Err(WordFault::Help(text)) => conclude(CANBIT, write_help(text.as_str(), w), e),
        Err(WordFault::Usage) => refuse(CANBIT, WordsFault::Usage, e),
        Err(WordFault::Memory) => refuse(CANBIT, WordsFault::Memory, e),
    }
}

/// Does what the subcommand is for.
fn answer<R: Source, W: Sink>(
    alloc: Global,
    chosen: Chosen,
    r: &mut R,
    w: &mut W,
) -> Result<(), CanbitFault>
    requires reader_unfailed { R.has_failed r.old ≡ false }
    requires reader_unended { R.has_ended r.old ≡ false }
    requires writer_unfailed { W.has_failed w.old ≡ false }
    ensures { Ends R.remaining r.old r.new W.contents w.old w.new (R.has_ended r.new) (R.has_failed r.new) (W.has_failed w.new) chosen (exit_status canbit_status result) }
{
    match chosen {
        Chosen::Encode => Ok(encode_lines(r, w)?),
        Chosen::Decode => Ok(decode_stream(r, w)?),
        Chosen::Run => Ok(run(alloc, r, w)?),
        Chosen::Check => {
            let (passed, count) = check_lines(r, w)?;
            if passed == count {
                Ok(())
            } else {
                Err(CanbitFault::VectorsDiffer)
            }
        }
    }
}
