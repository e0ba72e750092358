//! Circuits as files: Verilog, and AIGER with names.
//!
//! A file has the names of a circuit's inputs, registers and outputs, [`Names`]. Each is a word: a vector of literals
//! with one name. If a word has more bits than there are literals, the others are [`crate::FALSE`].

mod aiger;
mod lines;
mod pieces;
mod statements;
mod symbols;
mod text;
mod verilog;
mod words;

pub use aiger::{
    ascii_file, ascii_files_are_read_back, binary_file, binary_files_are_read_back,
    gates_are_read_back,
};
pub use lines::lines_are_read_back;
pub use statements::statements_are_read_back;
pub use symbols::symbols_are_read_back;
pub use verilog::{modules_are_read_back, verilog_file};
pub use words::{Names, Word};
