//! The words of a case's table.
ghost use Rattle.std.specs.List.{list_all};
ghost use Rattle.std.specs.Prelude.{◌==◌, not, ◌≡◌, ◌≢◌, ◌↔◌, List, codes, map, IfOk, IsTrue, MatchOption};
ghost use Rattle.toml.specs.Data.{string, table};
ghost use Rattle.toml.specs.View.{table_view, view};
ghost use Rattle.document_values.specs.Values.{named};
ghost use Rattle.can_terms.specs.declared.script.Start.{Start as StartSaid};
ghost use Rattle.kit_documents.specs.declared.cases.words.Needs.{Needs as NeedsSaid};
ghost use Rattle.kit_documents.specs.declared.cases.words.Choice.{Choice as ChoiceSaid};
ghost use Rattle.kit_documents.specs.CaseWords.{choice_word, IsPurpose, SaysChoices, SaysNeeds, SaysStart};
ghost use Rattle.kit_documents.specs.CaseWords.{TakesWord};

use crate::tables::text_of;
use can_terms::Start;
use document_values::elements_or_none;
use std::alloc::{AllocError, Global};
use toml::{Table, Value};

/// What a test bench must be able to do.
#[derive(Clone, Copy, Debug, PartialEq, Eq)]
pub struct Needs {
    /// Show the controller a recessive level while it drives dominant.
    pub forced: bool,
    /// Request overload frames of the controller.
    pub hold: bool,
    /// Let more than one frame be pending.
    pub queue: bool,
    /// Let the controller leave bus-off by itself.
    pub recovery: bool,
}

/// Points that the standard leaves open, or that are read in more than one way, on which an expected result depends.
#[derive(Clone, Copy, Debug, PartialEq, Eq)]
pub enum Choice {
    ReservedLevels,
    StuffException,
    OwnStart,
    FlagErrorOnce,
    OwnOverload,
    Rec127,
    RecoveryByItself,
    RecoveryRows,
    Prompt,
}

impl Choice {
    /// Returns the word that names this choice.
    pub fn word(self) -> &'static str
        ensures { result.now ≡ choice_word self }
    {
        match self {
            Choice::ReservedLevels => "reserved-levels",
            Choice::StuffException => "stuff-exception",
            Choice::OwnStart => "own-start",
            Choice::FlagErrorOnce => "flag-error-once",
            Choice::OwnOverload => "own-overload",
            Choice::Rec127 => "rec-127",
            Choice::RecoveryByItself => "recovery-by-itself",
            Choice::RecoveryRows => "recovery-rows",
            Choice::Prompt => "prompt",
        }
    }
}

/// A purpose has at most this number of bytes.
const LONGEST_PURPOSE: usize = 200;

/// Whether a text is one line of at most 200 bytes.
pub(crate) fn is_purpose(text: &str) -> bool
    ensures { IsTrue result ↔ IsPurpose text.now }
{
    text.len() <= LONGEST_PURPOSE && is_one_line(text.as_bytes())
}

/// Whether none of these bytes ends a line.
fn is_one_line(bytes: &[u8]) -> bool
    ensures { result ≡ list_all (λ byte. not (byte == 10)) bytes.now }
{
    bytes.iter().all(|byte| *byte != b'\n')
}

/// The start that a value names.
pub(crate) fn start_in(value: &Value) -> Option<Start>
    ensures { MatchOption result ((start : StartSaid) → ¬ SaysStart (view value.now) start) (SaysStart (view value.now)) }
{
    match text_of(value)? {
        "idle" => Some(Start::Idle),
        "joining" => Some(Start::Joining),
        _ => None,
    }
}

/// The needs of a case; none if they are left out.
pub(crate) fn needs_in(fields: &Table) -> Option<Needs>
    ensures { MatchOption result ((needs : NeedsSaid) → ¬ SaysNeeds (named (codes "needs") (table (table_view fields.now))) needs) (SaysNeeds (named (codes "needs") (table (table_view fields.now)))) }
{
    let words = elements_or_none(fields, "needs")?;
    let (forced, words) = take_word(words, "forced");
    let (hold, words) = take_word(words, "hold");
    let (queue, words) = take_word(words, "queue");
    let (recovery, words) = take_word(words, "recovery");
    if !words.is_empty() {
        return None;
    }
    Some(Needs {
        forced,
        hold,
        queue,
        recovery,
    })
}

/// Whether the list begins with this word, and the rest after it.
fn take_word<'a>(words: &'a [Value], word: &str) -> (bool, &'a [Value])
    ensures { TakesWord word.now (map view words.now) result.0 (map view result.1.now) }
{
    match words {
        [first, rest @ ..] if is_word(first, word) => (true, rest),
        _ => (false, words),
    }
}

/// Whether the value is this word.
fn is_word(value: &Value, word: &str) -> bool
    ensures { IsTrue result ↔ (view value.now ≡ string word.now) }
{
    match text_of(value) {
        Some(text) => text == word,
        None => false,
    }
}

/// The choices of a case; none if they are left out.
pub(crate) fn choices_in(alloc: Global, fields: &Table) -> Result<Option<Vec<Choice>>, AllocError>
    ensures { IfOk result (λ said. MatchOption said ((choices : List ChoiceSaid) → ¬ SaysChoices (named (codes "choices") (table (table_view fields.now))) choices) (λ choices. SaysChoices (named (codes "choices") (table (table_view fields.now))) choices.items)) }
{
    let Some(words) = elements_or_none(fields, "choices") else {
        return Ok(None);
    };
    let mut choices = Vec::new(alloc);
    for word in words {
        let Some(choice) = choice_in(word) else {
            return Ok(None);
        };
        choices.push(choice)?;
    }
    Ok(Some(choices))
}

/// The choice that a value names.
fn choice_in(value: &Value) -> Option<Choice>
    ensures { MatchOption result ((choice : ChoiceSaid) → view value.now ≢ string (choice_word choice)) (λ choice. view value.now ≡ string (choice_word choice)) }
{
    match text_of(value)? {
        "reserved-levels" => Some(Choice::ReservedLevels),
        "stuff-exception" => Some(Choice::StuffException),
        "own-start" => Some(Choice::OwnStart),
        "flag-error-once" => Some(Choice::FlagErrorOnce),
        "own-overload" => Some(Choice::OwnOverload),
        "rec-127" => Some(Choice::Rec127),
        "recovery-by-itself" => Some(Choice::RecoveryByItself),
        "recovery-rows" => Some(Choice::RecoveryRows),
        "prompt" => Some(Choice::Prompt),
        _ => None,
    }
}
