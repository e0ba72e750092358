//! Reads events and states from text.
ghost use Rattle.std.specs.Prelude.{ℕ, ◌≡◌, ◌≢◌, ◌++◌, List, None, MatchOption};
ghost use Rattle.can_fault.specs.declared.state.State.{State as StateSaid};
ghost use Rattle.can_frame.specs.Parts.{IsFrame, Parts};
ghost use Rattle.can_frame.specs.Text.{frame_text};
ghost use Rattle.can_terms.specs.declared.event.Event.{Event as EventSaid};
ghost use Rattle.can_fault.specs.Words.{state_word};
ghost use Rattle.kit_documents.specs.Events.{event_text, event_frame, SaysEvent};

use can_fault::State;
use can_frame::Frame;
use can_terms::{ErrorKind, Event};

/// Returns the event with exactly this text, as [`push_event`](crate::push_event) writes it.
pub fn read_event(text: &str) -> Option<Event>
    ensures { MatchOption result ((event : EventSaid) → ¬ SaysEvent text.now event) (SaysEvent text.now) }
{
    if let Some(frame) = frame_behind(text, "sent ") {
        return Some(Event::Sent(frame));
    }
    if let Some(frame) = frame_behind(text, "received ") {
        return Some(Event::Received(frame));
    }
    event_in_words(text)
}

/// The frame whose text follows this word.
fn frame_behind(text: &str, word: &str) -> Option<Frame>
    ensures { MatchOption result ((f : Parts) → IsFrame f → text.now ≢ word.now ++ frame_text f) (λ f. IsFrame f × (text.now ≡ word.now ++ frame_text f)) }
{
    frame_of(behind(text.as_bytes(), word.as_bytes())?)
}

/// The frame with this text.
fn frame_of(text: &[u8]) -> Option<Frame>
    ensures { MatchOption result ((f : Parts) → IsFrame f → text.now ≢ frame_text f) (λ f. IsFrame f × (text.now ≡ frame_text f)) }
{
    Frame::from_text(text).ok()
}

/// The event with this text, if it has no frame.
fn event_in_words(text: &str) -> Option<Event>
    ensures { MatchOption result
        ((event : EventSaid) → event_frame event ≡ None → text.now ≢ event_text event)
        (λ event. (event_frame event ≡ None) × (text.now ≡ event_text event)) }
{
    match text {
        "lost" => Some(Event::Lost),
        "bit error" => Some(Event::Error(ErrorKind::Bit)),
        "stuff error" => Some(Event::Error(ErrorKind::Stuff)),
        "crc error" => Some(Event::Error(ErrorKind::Crc)),
        "form error" => Some(Event::Error(ErrorKind::Form)),
        "ack error" => Some(Event::Error(ErrorKind::Ack)),
        "overload" => Some(Event::Overload),
        "went off" => Some(Event::WentOff),
        "recovered" => Some(Event::Recovered),
        _ => None,
    }
}

/// Returns the state with this word: `active`, `passive` or `off`.
pub fn read_state(word: &str) -> Option<State>
    ensures { MatchOption result ((state : StateSaid) → word.now ≢ state_word state) (λ state. word.now ≡ state_word state) }
{
    match word {
        "active" => Some(State::Active),
        "passive" => Some(State::Passive),
        "off" => Some(State::BusOff),
        _ => None,
    }
}

/// What follows this prefix, if the text begins with it.
pub(crate) fn behind<'a>(text: &'a [u8], front: &[u8]) -> Option<&'a [u8]>
    ensures { MatchOption result ((rest : List ℕ) → text.now ≢ front.now ++ rest) (λ rest. text.now ≡ front.now ++ rest.now) }
{
    text.strip_prefix(front)
}
