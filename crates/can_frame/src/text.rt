//! Frame text: each frame has one line of text. `read` reads its parts, and `write` writes them.
ghost use Rattle.std.specs.Prelude.{◌≡◌, ◌+◌, ◌≤◌, ◌++◌, length, IfOk, IfErr};
ghost use Rattle.std.specs.Str.{IsAscii};
ghost use Rattle.can_frame.specs.Parts.{Parts, IsFrame};
ghost use Rattle.can_frame.specs.Text.{frame_text, IsTextFault};

mod read;
mod write;

use crate::frame::Frame;
use TextFaultKind::{DataOrRemote, KindLetter, Trailing};
use arrayvec::{ArrayString, ArrayVec};
use std::str;
use thiserror::Error;

/// The part of a frame text that has the fault.
#[derive(Clone, Copy, Debug, PartialEq, Eq, Error)]
pub enum TextFaultKind {
    /// The kind letter, `S` or `E`, and the space after it.
    #[error("X1")]
    KindLetter,
    /// The identifier and the space after it.
    #[error("X2")]
    Identifier,
    /// The letter `D` or `R` and the space after it.
    #[error("X3")]
    DataOrRemote,
    /// The DLC, and the space after it if data bytes follow.
    #[error("X4")]
    Dlc,
    /// The data bytes.
    #[error("X5")]
    Data,
    /// Bytes follow a whole frame text.
    #[error("X6")]
    Trailing,
}

/// Why bytes are not a frame text. It prints as `X4 at 9`.
#[derive(Clone, Copy, Debug, PartialEq, Eq, Error)]
#[error("{kind} at {place}")]
pub struct TextFault {
    /// The part that has the fault.
    pub kind: TextFaultKind,
    /// The length of the longest prefix of the bytes that also begins some frame text.
    pub place: usize,
}

impl Frame {
    /// Returns the frame's text, 9 to 32 bytes of ASCII. It consists of these parts, with one space
    /// between two of them:
    ///
    /// - `S` for a standard or `E` for an extended identifier;
    /// - the identifier in three or eight hexadecimal digits;
    /// - `D` for a data frame or `R` for a remote frame;
    /// - the DLC in decimal, without leading zero;
    /// - if there are data bytes, two hexadecimal digits for each.
    ///
    /// Hexadecimal digits are in lower case.
    pub fn to_text(&self) -> ArrayString<32>
        ensures text { result.bytes ≡ frame_text self.now }
        ensures bound { length result.bytes ≤ 32 }
    {
        let bytes = self.text_bytes();
        // SAFETY: each byte is ASCII.
        let text = unsafe { str::from_utf8_unchecked(bytes.as_slice()) };
        ArrayString::from(text).unwrap()
    }

    /// Returns the frame's text, as [`to_text`](Frame::to_text) writes it, as bytes.
    pub fn text_bytes(&self) -> ArrayVec<u8, 32>
        ensures text { result.items ≡ frame_text self.now }
        ensures ascii { IsAscii result.items }
        ensures bound { length result.items ≤ 32 }
    {
        let mut text = ArrayVec::new();
        self.push_text(&mut text);
        text
    }

    /// Appends the frame's text to bytes. The vector must have space for 32 more.
    #[inline(always)]
    pub fn push_text<const ROOM: usize>(&self, text: &mut ArrayVec<u8, ROOM>)
        requires { length text.old.items + 32 ≤ ROOM }
        ensures written { text.new.items ≡ text.old.items ++ frame_text self.now }
        ensures ascii { IsAscii (frame_text self.now) }
        ensures bound { length text.new.items ≤ length text.old.items + 32 }
    {
        write::identifier(text, self);
        write::direction_and_dlc(text, self);
        write::data(text, self);
    }

    /// Returns the frame with this text, or the fault of the text. Only the spelling that
    /// [`to_text`](Frame::to_text) writes is accepted. The fault's place is the length of the longest
    /// prefix that begins some frame text. If this prefix is a whole frame text, the fault is the
    /// bytes after it.
    pub fn from_text(text: &[u8]) -> Result<Frame, TextFault>
        ensures found { IfOk result (λ f. IsFrame f × (frame_text f ≡ text.now)) }
        ensures only { (f : Parts) → IsFrame f → frame_text f ≡ text.now → result ≡ Ok f }
        ensures fault { IfErr result (IsTextFault text.now) }
    {
        let (is_extended, start) = read::letter(text, 0, b'S', b'E', KindLetter)?;
        let (id, start) = read::identifier(text, start, is_extended)?;
        let (is_remote, start) = read::letter(text, start, b'D', b'R', DataOrRemote)?;
        let (dlc, start) = read::data_length_code(text, start, is_remote)?;
        let (bytes, end) = read::data(text, start, read::byte_count(is_remote, dlc))?;
        if end < text.len() {
            return Err(TextFault {
                kind: Trailing,
                place: end,
            });
        }
        let frame = if is_remote {
            Frame::remote(id, dlc)
        } else {
            Frame::data(id, dlc, &bytes)
        };
        Ok(frame.unwrap())
    }
}

/// Two frames with the same text are equal.
pub fn one_text_a_frame()
    ensures { (f g : Parts) → IsFrame f → IsFrame g → frame_text f ≡ frame_text g → f ≡ g }
{}
