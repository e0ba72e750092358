//! Registers.
use crate::literal::Literal;

/// A register (flip-flop). Its value is an input of its circuit.
#[derive(Clone, Copy, Debug)]
pub struct Register {
    /// Its value after the next step.
    pub next: Literal,
    /// Its initial value.
    pub starts: bool,
}
