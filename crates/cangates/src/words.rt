//! What the words of a command line ask for.
ghost use Rattle.std.specs.Prelude.{◌≡◌};
ghost use Rattle.can_program.specs.Words.{texts_of};
ghost use Rattle.cangates.specs.Words.{asked_by, asked_word, asked_words};

/// The form of a file.
#[derive(Clone, Copy)]
pub enum Form {
    /// A module in Verilog-2001.
    Verilog,
    /// The ASCII format of AIGER.
    Ascii,
    /// The binary format of AIGER.
    Binary,
}

/// What is asked for.
#[derive(Clone, Copy)]
pub enum Asked {
    /// The circuit, in this form.
    File(Form),
    /// The help text.
    Help,
    /// The program's name and its version.
    Version,
}

/// Returns what the words ask for; the first one is the program's name. They name a file, or ask for the help text or
/// the version. An option after a subcommand may ask for AIGER's binary format, or for help. Other words return `None`.
pub fn read_words(words: &[String]) -> Option<Asked>
    ensures { result ≡ asked_by (texts_of words.now) }
{
    match words {
        [_, word] => read_word(word.as_str()),
        [_, word, option] => read_option(word.as_str(), option.as_str()),
        _ => None,
    }
}

/// What one word asks for.
fn read_word(word: &str) -> Option<Asked>
    ensures { result ≡ asked_word word.now }
{
    match word {
        "verilog" => Some(Asked::File(Form::Verilog)),
        "aiger" => Some(Asked::File(Form::Ascii)),
        "help" | "--help" | "-h" => Some(Asked::Help),
        "--version" | "-V" => Some(Asked::Version),
        _ => None,
    }
}

/// What a subcommand and an option after it ask for.
fn read_option(word: &str, option: &str) -> Option<Asked>
    ensures { result ≡ asked_words word.now option.now }
{
    match (word, option) {
        ("aiger", "--binary") => Some(Asked::File(Form::Binary)),
        ("verilog" | "aiger", "--help" | "-h") => Some(Asked::Help),
        _ => None,
    }
}
