//! The field and kind of each level of a frame.
//!
//! [`marks`] takes levels that begin with a start of frame, received one by one as in can_code. For each level it
//! returns the [`Field`] that it belongs to, and whether it is a stuff bit. The levels need not be a whole frame.
//! After a wrong stuff bit there are no marks.
//!
//! | File | What it has | Defined in |
//! |---|---|---|
//! | `field.rt` | [`Field`], a part of a frame, and [`field_at`], the field of an unstuffed place | `specs/Fields.antt` |
//! | `mark.rt` | [`Mark`], the field of a level and whether it is a stuff bit, and [`marks`], those of levels | `specs/Marks.antt` |
#![tactic(auto)]

mod field;
mod mark;

pub use field::{Field, field_at};
pub use mark::{MOST_LEVELS, Mark, marks};
