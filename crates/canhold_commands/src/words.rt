//! What the words of a command line ask for.
ghost use Rattle.std.specs.Prelude.{◌≡◌};
ghost use Rattle.can_program.specs.Words.{texts_of};
ghost use Rattle.canhold_commands.specs.Words.{asked_of_canhold, canhold_word, canhold_words};

/// What is asked about a kit document.
#[derive(Clone, Copy, Debug, PartialEq, Eq)]
pub enum Question {
    /// What the reference does in each of its cases.
    Expect,
    /// Whether its transcripts agree with the reference.
    Judge,
}

/// A subcommand.
#[derive(Clone, Copy, Debug, PartialEq, Eq)]
pub enum Chosen {
    /// Reads a kit document, and writes the output for it.
    Document(Question),
    /// Reads a runner's lines, and writes the reference's replies.
    Play,
}

/// What is asked for.
#[derive(Clone, Copy, Debug, PartialEq, Eq)]
pub enum Asked {
    Run(Chosen),
    Help,
    Version,
}

/// Returns what the words ask for; the first one is the program's name. They name a subcommand, or ask for the help
/// text or the version. An option after a subcommand may also ask for help. Other words return `None`.
pub fn read_words(words: &[String]) -> Option<Asked>
    ensures { result ≡ asked_of_canhold (texts_of words.now) }
{
    match words {
        [_, word] => read_word(word.as_str()),
        [_, word, option] => read_option(word.as_str(), option.as_str()),
        _ => None,
    }
}

/// What one word asks for.
fn read_word(word: &str) -> Option<Asked>
    ensures { result ≡ canhold_word word.now }
{
    match word {
        "play" => Some(Asked::Run(Chosen::Play)),
        "expect" => Some(Asked::Run(Chosen::Document(Question::Expect))),
        "judge" => Some(Asked::Run(Chosen::Document(Question::Judge))),
        "help" | "--help" | "-h" => Some(Asked::Help),
        "--version" | "-V" => Some(Asked::Version),
        _ => None,
    }
}

/// What a subcommand and an option after it ask for.
fn read_option(word: &str, option: &str) -> Option<Asked>
    ensures { result ≡ canhold_words word.now option.now }
{
    match (word, option) {
        ("play" | "expect" | "judge", "--help" | "-h") => Some(Asked::Help),
        _ => None,
    }
}
