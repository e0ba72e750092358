//! How a run ends: its help text, the line of its fault, and its exit status.
ghost use Rattle.std.specs.Prelude.{◌≡◌, ◌<◌, false, is_err, IfErr, OnOk};
ghost use Rattle.std.specs.Io.KnownBytes.{Appends};
ghost use Rattle.can_program.specs.Status.{exit_status, stream_status};

use crate::fault::RunFault;
use crate::program::Program;
use arrayvec::ArrayString;
use can_stream::{Sink, TraceFault, write_all};
use std::fmt::Write;

/// The room for a fault's line, in bytes: a name of 11, a code with its place of 66, what it is of with 80, words of 128, and
/// nine between them and at the end.
const LINE_ROOM: usize = 294;

/// Writes the help text.
pub fn write_help<W: Sink>(text: &str, w: &mut W) -> Result<(), TraceFault>
    requires { W.has_failed w.old ≡ false }
    ensures ok { OnOk result (Appends (W.contents w.old) (W.contents w.new) text.now) }
    ensures failed { W.has_failed w.new ≡ is_err result }
    ensures fault { IfErr result (λ e. stream_status e ≡ 3) }
{
    write_all(w, text.as_bytes())
}

/// The exit status of this outcome of a program. A fault is printed as a line on `e`.
pub fn conclude<F: RunFault, E: Sink>(program: Program, outcome: Result<(), F>, e: &mut E) -> u8
    ensures status { result ≡ exit_status F.status_of outcome }
    ensures silent { result ≡ 0 → e.new ≡ e.old }
{
    conclude_of(program, outcome, "", e)
}

/// The exit status of this outcome of a program. A fault is printed as a line on `e`, with what it is of, if that is not
/// empty.
pub fn conclude_of<F: RunFault, E: Sink>(
    program: Program,
    outcome: Result<(), F>,
    of: &str,
    e: &mut E,
) -> u8
    ensures status { result ≡ exit_status F.status_of outcome }
    ensures silent { result ≡ 0 → e.new ≡ e.old }
{
    match outcome {
        Ok(()) => 0,
        Err(fault) => refuse_of(program, fault, of, e),
    }
}

/// Prints a fault of a program as a line on `e`, and returns its exit status. A line that `e` does not take, or that has
/// more than 294 bytes, is left out, and the status is the same.
pub fn refuse<F: RunFault, E: Sink>(program: Program, fault: F, e: &mut E) -> u8
    ensures status { result ≡ F.status_of fault }
    ensures told { 0 < result }
{
    refuse_of(program, fault, "", e)
}

/// Prints a fault of a program with what it is of, if that is not empty, and returns its exit status.
fn refuse_of<F: RunFault, E: Sink>(program: Program, fault: F, of: &str, e: &mut E) -> u8
    ensures status { result ≡ F.status_of fault }
    ensures told { 0 < result }
{
    let mut line = ArrayString::<LINE_ROOM>::new();
    if !e.failed() && write_fault(&mut line, program, fault, of).is_ok() {
        let _ = write_all(e, line.as_bytes());
    }
    fault.status()
}

/// Writes the line of a fault: the program's name, the code with its place, what it is of, and the words, if the program
/// prints them.
fn write_fault<F: RunFault>(
    line: &mut ArrayString<LINE_ROOM>,
    program: Program,
    fault: F,
    of: &str,
) -> std::fmt::Result {
    write_code(line, program.name, fault, of)?;
    let words = fault.words();
    if program.explains && !words.is_empty() {
        write!(line, ": {words}")?;
    }
    writeln!(line)
}

/// Writes a program's name, the code of a fault with its place, and what it is of.
fn write_code<F: RunFault>(
    line: &mut ArrayString<LINE_ROOM>,
    name: &str,
    fault: F,
    of: &str,
) -> std::fmt::Result {
    if of.is_empty() {
        write!(line, "{name}: {fault}")
    } else {
        write!(line, "{name}: {fault} of {of}")
    }
}
