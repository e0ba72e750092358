//! Values of a classical CAN bus: levels, identifiers, frames and their texts.
//!
//! | File | What it has | Defined in |
//! |---|---|---|
//! | `level.rt` | [`Level`], a bit value, with its number and digit, and [`IDLE_ROW`], the number of recessive levels that end a frame | `specs/Levels.antt`, `specs/IdleRow.antt` |
//! | `id.rt` | [`Id`], an identifier of 11 or 29 bits | `specs/Ident.antt` |
//! | `frame.rt` | [`Frame`], a data or remote frame, which keeps exactly the parts it was made from | `specs/Parts.antt` |
//! | `key.rt` | [`Key`], a frame's arbitration field, ordered by priority | `specs/Arbitration.antt`, `specs/KeyBits.antt` |
//! | `text.rt`, `text/` | frame text: writing, reading, and the fault of other text | `specs/Text.antt`, `specs/TextParts.antt` |
//! | `laws.rt` | laws of levels, keys and fields, each a function whose contract is the law | `specs/Arbitration.antt` |
//!
//! `proofs/Lib.antt` lists the lemmas that other crates may use, with the contents of each file.
#![tactic(auto)]

mod frame;
mod id;
mod key;
mod laws;
mod level;
mod text;

pub use frame::{Frame, FrameFault};
pub use id::Id;
pub use key::Key;
pub use laws::{
    before_is_an_order, dominant_is_less, field_tells_identifier_and_kind, lesser_key_goes_first,
    no_field_begins_another,
};
pub use level::{IDLE_ROW, Level};
pub use text::{TextFault, TextFaultKind, one_text_a_frame};
