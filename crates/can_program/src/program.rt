//! What a program is called, and how it prints a fault.

/// A program, as the lines of its faults show it.
#[derive(Clone, Copy, Debug, PartialEq, Eq)]
pub struct Program {
    /// The program's name, of at most 11 bytes, which begins the line of a fault.
    pub name: &'static str,
    /// Whether words follow the code of a fault. `canbit` prints codes alone.
    pub explains: bool,
}
