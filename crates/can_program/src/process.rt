//! A run of a program in its process.
ghost use Rattle.std.specs.Prelude.{◌≡◌, ◌≢◌, false, IfErr, IfOk, Err, Ok};
ghost use Rattle.std.specs.IoError.{error_kind};
ghost use Rattle.can_stream.specs.Wrapped.{read_ended, read_failed, write_failed};

use crate::ending::refuse;
use crate::fault::WordsFault;
use crate::program::Program;
use can_stream::{FromRead, Sink, ToWrite};
use std::io;
use std::io::{ErrorKind, Stderr, Stdin, Stdout};
use std::process::ExitCode;

/// Runs a program, as `execute` does, on the words and the standard streams of its process. The words begin with the name
/// by which it was called.
pub fn run_program<F>(rt: HostRuntime, program: Program, execute: F) -> ExitCode
where
    F: FnOnce(Vec<String>, &mut FromRead<Stdin>, &mut ToWrite<Stdout>, &mut ToWrite<Stderr>) -> u8,
    requires { (words : _) (reader : _) (writer : _) (errors : _)
        → read_failed reader.now ≡ false → read_ended reader.now ≡ false → write_failed writer.now ≡ false
        → F.pre execute words reader writer errors }
{
    let mut reader = FromRead::new(rt.stdin());
    let mut writer = ToWrite::new(rt.stdout());
    let mut errors = ToWrite::new(rt.stderr());
    let status = match words_or_status(program, command_line(&rt), &mut errors) {
        Ok(words) => execute(words, &mut reader, &mut writer, &mut errors),
        Err(status) => status,
    };
    ExitCode::from(status)
}

/// The words that were read for a program. If they could not be read, the exit status of that fault, which is printed as a
/// line on `e`.
pub fn words_or_status<E: Sink>(
    program: Program,
    words: io::Result<Vec<String>>,
    e: &mut E,
) -> Result<Vec<String>, u8>
    ensures read { IfOk words (λ given. (result ≡ Ok given) × (e.new ≡ e.old)) }
    ensures no_memory { IfErr words (λ error. error_kind error ≡ ErrorKind.OutOfMemory → result ≡ Err 4) }
    ensures unreadable { IfErr words (λ error. error_kind error ≢ ErrorKind.OutOfMemory → result ≡ Err 2) }
{
    match words {
        Ok(words) => Ok(words),
        Err(error) => Err(refuse(program, WordsFault::of(&error), e)),
    }
}

/// Returns the words of the command line.
fn command_line(rt: &HostRuntime) -> io::Result<Vec<String>> {
    Ok(std::env::args(rt)?.collect(rt.alloc())?)
}
