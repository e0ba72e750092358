//! What the words of a command line ask for.
ghost use Rattle.std.specs.Prelude.{◌≡◌};
ghost use Rattle.can_program.specs.Words.{texts_of};
ghost use Rattle.can_plan_text.specs.Words.{asked_of_canplan, asked_of_message, canplan_word, message_in};

/// What is asked for.
#[derive(Clone, Copy, Debug, PartialEq, Eq)]
pub enum Asked {
    /// The bounds for a network's document.
    Answer,
    /// The bounds with their parts.
    Details,
    /// The scenario of the worst case of a message, whose name follows the word.
    Timeline,
    /// The help text.
    Help,
    /// The program's name and its version.
    Version,
}

/// Returns what the words ask for, or `None` if they are not a valid use of the program. The first word is the
/// program's name. No other word asks for the bounds. Others ask for bounds with details, the scenario of a message's
/// worst case, the help text or the version.
pub fn read_words(words: &[String]) -> Option<Asked>
    ensures { result ≡ asked_of_canplan (texts_of words.now) }
{
    match words {
        [_] => Some(Asked::Answer),
        [_, word] => read_word(word.as_str()),
        [_, word, _] => read_word_of_message(word.as_str()),
        _ => None,
    }
}

/// Returns what one word asks for.
fn read_word(word: &str) -> Option<Asked>
    ensures { result ≡ canplan_word word.now }
{
    match word {
        "help" | "--help" | "-h" => Some(Asked::Help),
        "--version" | "-V" => Some(Asked::Version),
        "--details" => Some(Asked::Details),
        _ => None,
    }
}

/// Returns what a word asks for that is followed by the name of a message.
fn read_word_of_message(word: &str) -> Option<Asked>
    ensures { result ≡ asked_of_message word.now }
{
    match word {
        "--timeline" => Some(Asked::Timeline),
        _ => None,
    }
}

/// Returns the message that the words name.
pub(crate) fn message_of(words: &[String]) -> &str
    ensures { result.now ≡ message_in (texts_of words.now) }
{
    match words {
        [_, _, message] => message.as_str(),
        _ => "",
    }
}
