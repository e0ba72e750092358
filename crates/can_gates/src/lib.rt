//! Circuits of AND gates: the calls that make gates, also for logic and for the arithmetic of numbers, and the files of
//! a circuit: Verilog, and AIGER with names.
//!
//! A [`Circuit`] is a list of gates, each the AND of two [`Literal`]s, as in an AIGER file. An assignment gives each
//! signal a value. It keeps the circuit if signal 0 is false and each gate's signal is the AND of its two sides. The
//! contract of each call that makes gates is an equation over Booleans and numbers. It holds in each assignment that
//! keeps the circuit with the new gates. Nothing is required of a literal.
//!
//! A circuit allocates its memory when it is made, for a number of gates. A gate is not made if the circuit is full, or
//! if the gate needs a signal that the circuit does not have. From then on the circuit is incomplete: no assignment
//! keeps it, and the writers of files refuse it with this reason. So calls that make gates cannot fail, and
//! [`Circuit::lack`] is called once, after the last gate. Given signals that the circuit has, each call leaves it
//! complete unless it is full.
//!
//! | File | What it has | Defined in |
//! |---|---|---|
//! | `literal.rt` | [`Literal`], a signal or its negation, [`FALSE`] and [`TRUE`] | `specs/Circuit.antt` |
//! | `circuit.rt` | [`Circuit`], its [`Gate`]s, and the AND of two literals, which makes a gate only if it needs one | `specs/Circuit.antt`, `specs/Runs.antt`, `specs/Ordered.antt`, `specs/Lacking.antt` |
//! | `lack.rt` | [`Lack`], why a circuit lacks a gate; [`CircuitFault`], why it is not returned | `specs/Lacking.antt` |
//! | `chains.rt` | an index of gates, by the signal of their left side | |
//! | `choices.rt` | OR, XOR, and a choice between two literals | `specs/Circuit.antt` |
//! | `words.rt` | numbers as arrays of literals, the lowest bit first: constants and choices | `specs/Words.antt` |
//! | `sums.rt` | sums and differences, with a carry or saturated | `specs/Words.antt` |
//! | `orders.rt` | which of two numbers is less, and whether they are equal | `specs/Words.antt` |
//! | `select.rt` | the literal at an index that is a number | `specs/Words.antt` |
//! | `register.rt` | [`Register`] | |
//! | `files/words.rt` | [`Names`], [`Word`], and the names of the bits of words | `specs/Names.antt` |
//! | `files/text.rt` | a text, written piece by piece | `specs/Texts.antt` |
//! | `files/verilog.rt` | [`verilog_file`]: a module of Verilog-2001, whose statements have three forms, and [`modules_are_read_back`] | `specs/Verilog.antt`, `specs/Module.antt` |
//! | `files/statements.rt` | these statements, and [`statements_are_read_back`] | `specs/Statements.antt` |
//! | `files/lines.rt` | lines of numbers, and [`lines_are_read_back`] | `specs/Aiger.antt` |
//! | `files/aiger.rt` | [`ascii_file`] and [`binary_file`]: AIGER files; [`ascii_files_are_read_back`], [`binary_files_are_read_back`] and [`gates_are_read_back`] | `specs/Named.antt`, `specs/Binary.antt`, `specs/Files.antt` |
//! | `files/symbols.rt` | their names, and [`symbols_are_read_back`] | `specs/Named.antt` |
//! | `files/pieces.rt` | literals and names as texts | |
//!
//! A call that makes a word takes words of one length, and allocates no memory. A call that compares or selects takes
//! words of any two lengths: past its end a word has [`FALSE`].
//!
//! A gate that would be made again is found in the chain of its left side's signal. The gate found there is compared
//! before it is used, so the laws need no property of the chain. That equal gates are made only once is tested
//! (tests/rows).
#![tactic(auto)]

mod chains;
mod choices;
mod circuit;
mod files;
mod lack;
mod literal;
mod orders;
mod register;
mod select;
mod sums;
mod words;

pub use circuit::{Circuit, Gate};
pub use files::{
    Names, Word, ascii_file, ascii_files_are_read_back, binary_file, binary_files_are_read_back,
    gates_are_read_back, lines_are_read_back, modules_are_read_back, statements_are_read_back,
    symbols_are_read_back, verilog_file,
};
pub use lack::{CircuitFault, Lack};
pub use literal::{FALSE, Literal, TRUE};
pub use register::Register;
pub use words::{constant, literal_at};
