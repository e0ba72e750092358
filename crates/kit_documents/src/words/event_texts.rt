//! Writes events and states as text.
ghost use Rattle.std.specs.Prelude.{◌≡◌, ◌++◌, codes, OnOk};
ghost use Rattle.can_frame.specs.Text.{frame_text};
ghost use Rattle.can_fault.specs.Words.{state_word};
ghost use Rattle.kit_documents.specs.Events.{event_text};

use can_fault::State;
use can_frame::Frame;
use can_terms::Event;
use document_values::push_text;
use std::alloc::AllocError;

/// Appends an event, such as `received S 123 D 1 c3` or `stuff error`.
pub fn push_event(out: &mut Vec<u8>, event: &Event) -> Result<(), AllocError>
    ensures { OnOk result (out.new.items ≡ out.old.items ++ event_text event.now) }
{
    match event {
        Event::Sent(frame) => push_frame(out, b"sent ", frame),
        Event::Received(frame) => push_frame(out, b"received ", frame),
        _ => push_text(out, event.kind().word().as_bytes()),
    }
}

/// Appends a word and the text of a frame.
fn push_frame(out: &mut Vec<u8>, word: &[u8], frame: &Frame) -> Result<(), AllocError>
    ensures { OnOk result (out.new.items ≡ out.old.items ++ (word.now ++ frame_text frame.now)) }
{
    push_text(out, word)?;
    push_text(out, frame.text_bytes().as_slice())
}

/// Appends the word for a state: `active`, `passive` or `off`.
pub fn push_state(out: &mut Vec<u8>, state: State) -> Result<(), AllocError>
    ensures { OnOk result (out.new.items ≡ out.old.items ++ state_word state) }
{
    push_text(out, state.word().as_bytes())
}
