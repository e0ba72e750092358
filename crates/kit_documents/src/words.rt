//! Words of documents and of the line protocol: levels, events, states and names, written and read.

pub(crate) mod event_texts;
pub(crate) mod events;
pub(crate) mod levels;
pub(crate) mod names;
pub(crate) mod reading;
