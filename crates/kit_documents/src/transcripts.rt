//! Transcripts of documents.

pub(crate) mod drove;
pub(crate) mod elements;
pub(crate) mod known;
pub(crate) mod lists;
pub(crate) mod naming;
pub(crate) mod told;
