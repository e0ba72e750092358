//! Cases of documents.

pub(crate) mod case;
pub(crate) mod earlier;
pub(crate) mod head;
pub(crate) mod lists;
pub(crate) mod naming;
pub(crate) mod tester;
pub(crate) mod timed;
pub(crate) mod words;
