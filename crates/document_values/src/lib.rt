//! Values of TOML documents. A reader returns the value of a field, or `None` if the field is not what it has to be. A
//! writer appends to a buffer. It fails only if an allocation fails, and then the buffer has the beginning of the text.
//!
//! The requirements on a document are a list of demands in their order, each with the field that is reported if it is
//! not met (`specs/Demands.antt`). Crates that use this one state their demands, and read the values with these calls.
//!
//! | File | What it has | Defined in |
//! |---|---|---|
//! | `document.rt` | [`read_document`], the document of some bytes | `specs/Values.antt` |
//! | `values.rt` | fields, numbers, truth values, arrays and frames | `specs/Values.antt` |
//! | `texts.rt` | [`push_text`], [`push_number`], [`push_named`] | |
//!
//! Lemmas: `DemandLemmas` is on demands one after another, `ReadLists` on the elements of an array, `ReadValues` on
//! what the readers return, `Pairs` on arrays of two and three. `OneReading` is that values and demands agree.
#![tactic(auto)]

mod document;
mod texts;
mod values;

pub use document::{DocumentFault, read_document};
pub use texts::{push_named, push_number, push_text};
pub use values::{
    elements_of, elements_or_none, field, fields_of, frame, has_only, number, number_or,
    required_number, three_of, truth, two_of, whole_number,
};
