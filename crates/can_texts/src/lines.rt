//! Lines of frames and of vectors, with an output line for each.
mod check;
mod encode;
mod vector;
mod verdict;

pub use check::check_lines;
pub use encode::encode_lines;
