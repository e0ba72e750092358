//! Which subcommand the words of a command line name.
ghost use Rattle.std.specs.Prelude.{◌≡◌, ◌≢◌, ◌⊎◌, [], ◌∷◌, ℕ, List, MatchResult, IfErr, IfOk, OnOk, Some, false};
ghost use Rattle.clap.specs.Words.{app_of, shape_of, kind_of, subcommand_name_of, HasKind};
ghost use Rattle.clap.specs.Simple.{new_shape};
ghost use Rattle.clap.specs.declared.builder.command.Command.TheViews.{out-Command as fields_of};
ghost use Rattle.canbit_commands.specs.Subcommands.{canbit, name_of};
ghost use Rattle.can_program.specs.Words.{texts_of};
ghost use Rattle.canbit_commands.specs.Words.{AsksFor, AsksForHelp, IsMisuse, faults_in, named_in};

use crate::help::{PROGRAM, USAGE};
use crate::subcommands::Chosen;
use clap::error::{Error, ErrorKind};
use clap::{ArgMatches, Command};
use std::alloc::{AllocError, Global};

/// Why words name no subcommand.
#[derive(Debug, Drop)]
pub enum WordFault {
    /// They are not a valid use of the program.
    Usage,
    /// They ask for help, which is this text.
    Help(String),
    /// Memory ran out.
    Memory,
}

impl From<AllocError> for WordFault {
    ghost use Rattle.canbit_commands.specs.declared.words.WordFault.TheVariants.{Memory};

    ghost from_gives = { λ _ fault. fault ≡ Memory };

    fn from(_error: AllocError) -> WordFault {
        WordFault::Memory
    }
}

/// Returns one subcommand, for `clap`.
fn subcommand<'a>(alloc: Global, chosen: Chosen) -> Command<'a>
    ensures shape { shape_of result ≡ new_shape (name_of chosen) }
    ensures local { (fields_of result).has_globals ≡ false }
{
    let name: &'a str = chosen.name();
    let about: &'a str = chosen.about();
    let details: &'a str = chosen.details();
    Command::new(alloc, name).about(about).after_help(details)
}

/// Returns the command, for `clap`.
fn command<'a>(alloc: Global) -> Result<Command<'a>, AllocError>
    ensures { IfOk result (λ command. app_of command ≡ canbit) }
{
    let mut command = Command::new(alloc, "canbit")
        .about("Codes, decodes and checks frames of a classical CAN bus, and runs scenarios")
        .override_usage(USAGE)
        .after_help(PROGRAM)
        .subcommand_required(true);
    for chosen in Chosen::ALL {
        command = command.subcommand(subcommand(alloc, chosen))?;
    }
    Ok(command)
}

/// Returns what `clap` parses the words to.
fn parsed<'a>(alloc: Global, words: &'a [String]) -> Result<ArgMatches<'a>, Error>
    ensures taken { OnOk result (faults_in (texts_of words.entry.now) ≡ []) }
    ensures named { IfOk result (λ m. subcommand_name_of m ≡ named_in (texts_of words.entry.now)) }
    ensures known { IfOk result (λ m. (chosen : Chosen)
        × (subcommand_name_of m ≡ Some (name_of chosen))) }
    ensures refused { IfErr result (HasKind (faults_in (texts_of words.entry.now))) }
    ensures alone { (name : List ℕ) (chosen : Chosen)
        → texts_of words.entry.now ≡ name ∷ name_of chosen ∷ []
        → MatchResult result (λ m. subcommand_name_of m ≡ Some (name_of chosen))
        (λ e. kind_of e ≡ ErrorKind.OutOfMemory) }
{
    command(alloc)?.try_get_matches_from(words)
}

/// Returns the subcommand that a parse found.
fn met(matches: &ArgMatches<'_>) -> Chosen
    requires { (chosen : Chosen) × (subcommand_name_of matches.now ≡ Some (name_of chosen)) }
    ensures name { subcommand_name_of matches.now ≡ Some (name_of result) }
    ensures only { (chosen : Chosen) → subcommand_name_of matches.now ≡ Some (name_of chosen)
        → result ≡ chosen }
{
    matches.subcommand_name().and_then(Chosen::named).unwrap()
}

/// Returns the meaning of an error of `clap`.
fn refusal(alloc: Global, error: &Error) -> WordFault
    ensures memory { kind_of error.now ≡ ErrorKind.OutOfMemory → result ≡ WordFault.Memory }
    ensures usage { result ≡ WordFault.Usage
        → (kind_of error.now ≢ ErrorKind.OutOfMemory) × (kind_of error.now ≢ ErrorKind.DisplayHelp) }
    ensures help { (text : _) → result ≡ WordFault.Help text
        → kind_of error.now ≡ ErrorKind.DisplayHelp }
{
    match error.kind() {
        ErrorKind::OutOfMemory => WordFault::Memory,
        ErrorKind::DisplayHelp => match error.to_string(alloc) {
            Ok(text) => WordFault::Help(text),
            Err(_) => WordFault::Memory,
        },
        _ => WordFault::Usage,
    }
}

/// Returns the subcommand that the words name. They begin with the program's name.
///
/// - `Usage`: they are not a valid use of the program. They name no subcommand, or a word is unknown or
///   one too many.
/// - `Help`: they ask for help, with `help`, `--help` or `-h`.
/// - `Memory`: memory ran out.
pub fn chosen(alloc: Global, words: &[String]) -> Result<Chosen, WordFault>
    ensures ok { IfOk result (λ chosen. AsksFor chosen (texts_of words.now)) }
    ensures usage { result ≡ Err WordFault.Usage → IsMisuse (texts_of words.now) }
    ensures help { (text : _) → result ≡ Err (WordFault.Help text)
        → AsksForHelp (texts_of words.now) }

    // The program's name, whatever it is, and the name of a subcommand are enough.
    ensures alone { (name : List ℕ) (chosen : Chosen)
        → texts_of words.now ≡ name ∷ name_of chosen ∷ []
        → (result ≡ Ok chosen) ⊎ (result ≡ Err WordFault.Memory) }
    ensures alone_asks { (name : List ℕ) (chosen : Chosen)
        → texts_of words.now ≡ name ∷ name_of chosen ∷ [] → AsksFor chosen (texts_of words.now) }
{
    match parsed(alloc, words) {
        Ok(matches) => Ok(met(&matches)),
        Err(error) => Err(refusal(alloc, &error)),
    }
}
