//! What the program does, over any streams.
ghost use Rattle.std.specs.Prelude.{◌≡◌, ◌⊎◌, ◌<◌, false, Option, Result, IsTrue};
ghost use Rattle.std.specs.Io.KnownBytes.{Appends};
ghost use Rattle.can_stream.specs.declared.fault.TraceFault.{TraceFault as Fault};
ghost use Rattle.can_program.specs.Status.{exit_status, stream_status};
ghost use Rattle.can_program.specs.Words.{texts_of};
ghost use Rattle.cangates.specs.Files.{Does, TellsWriter};
ghost use Rattle.cangates.specs.Words.{asked_by};

use crate::file::file;
use crate::help::{HELP, VERSION};
use crate::words::{Asked, Form, read_words};
use can_program::{Program, WordsFault, conclude, refuse, write_help};
use can_stream::{Sink, TraceFault, write_all};
use std::alloc::Global;

/// The program, whose faults are printed with words.
pub const CANGATES: Program = Program {
    name: "cangates",
    explains: true,
};

/// Executes the command line, and returns the exit status. The first word is the program's name. The file, the help
/// text or the version is written to `w`, and the line of a fault to `e`.
///
/// | Status | Line | Meaning |
/// |---|---|---|
/// | 0 | none | all was done |
/// | 2 | `cangates: usage: ..` | the words are refused |
/// | 3 | `cangates: P4 write: standard output could not be written` | `w` failed |
/// | 4 | `cangates: P5 memory: ..` | memory ran out |
pub fn execute<W: Sink, E: Sink>(alloc: Global, words: &[String], w: &mut W, e: &mut E) -> u8
    requires { W.has_failed w.old ≡ false }
    ensures status { result < 5 }

    // The file that the words ask for is written.
    ensures written { (form : Form) → asked_by (texts_of words.now) ≡ Option.Some (Asked.File form)
        → (outcome : Result (Unit {0}) Fault) × (result ≡ exit_status stream_status outcome)
        × Does form (W.contents w.old) (W.contents w.new) outcome }
    ensures write_failed { result ≡ 3 → IsTrue (W.has_failed w.new) }
    ensures write_told { IsTrue (W.has_failed w.new) → result ≡ 3 }

    // Help text and version are written if the words ask for them. Words that ask for nothing are refused.
    ensures help_status { asked_by (texts_of words.now) ≡ Option.Some Asked.Help → (result ≡ 0) ⊎ (result ≡ 3) }
    ensures helped { asked_by (texts_of words.now) ≡ Option.Some Asked.Help → result ≡ 0
        → Appends (W.contents w.old) (W.contents w.new) HELP.now }
    ensures version_status { asked_by (texts_of words.now) ≡ Option.Some Asked.Version → (result ≡ 0) ⊎ (result ≡ 3) }
    ensures version_written { asked_by (texts_of words.now) ≡ Option.Some Asked.Version → result ≡ 0
        → Appends (W.contents w.old) (W.contents w.new) VERSION.now }
    ensures refused { asked_by (texts_of words.now) ≡ Option.None → result ≡ 2 }
    ensures misuse { result ≡ 2 → asked_by (texts_of words.now) ≡ Option.None }

    // Nothing else is written.
    ensures untouched { result ≡ 2 → w.new ≡ w.old }
    ensures no_fault_line { result ≡ 0 → e.new ≡ e.old }
{
    match read_words(words) {
        Some(Asked::File(form)) => conclude(CANGATES, write_file(alloc, form, w), e),
        Some(Asked::Help) => conclude(CANGATES, write_help(HELP, w), e),
        Some(Asked::Version) => conclude(CANGATES, write_help(VERSION, w), e),
        None => refuse(CANGATES, WordsFault::Usage, e),
    }
}

/// Writes the file in this form.
#[tactic(auto, using(crate::proofs::Written::written, crate::proofs::Written::unwritten, crate::proofs::Written::told, crate::proofs::Written::untold))]
fn write_file<W: Sink>(alloc: Global, form: Form, w: &mut W) -> Result<(), TraceFault>
    requires { W.has_failed w.old ≡ false }
    ensures does { Does form (W.contents w.old) (W.contents w.new) result }
    ensures streams { TellsWriter (W.has_failed w.new) (exit_status stream_status result) }
{
    match file(alloc, form) {
        Ok(text) => write_all(w, text.as_slice()),
        // the controller's circuit lacks no gate, so only an allocation can fail
        Err(_) => Err(TraceFault::Memory),
    }
}
