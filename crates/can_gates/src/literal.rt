//! Signals and their negations.
ghost use Rattle.std.specs.Prelude.{◌≡◌, ◌≤◌, ◌&&◌, ℕ, Bool, false, max, not, IfSome, IsTrue};
ghost use Rattle.can_gates.specs.Aiger.{literal_code};
ghost use Rattle.can_gates.specs.Circuit.{value};
ghost use Rattle.can_gates.specs.Words.{bit};

/// A signal, or its negation.
#[derive(Clone, Copy, Debug)]
pub struct Literal {
    /// The number of the signal. Signal 0 is false.
    pub signal: u32,
    /// Whether the literal is the negation of the signal.
    pub negated: bool,
}

/// The literal that is never true.
pub const FALSE: Literal = Literal {
    signal: 0,
    negated: false,
};

/// The literal that is always true.
pub const TRUE: Literal = Literal {
    signal: 0,
    negated: true,
};

impl Literal {
    /// Returns the negation of the literal.
    #[tactic(auto, unfolding(crate::specs::Circuit::value))]
    pub fn opposite(self) -> Literal
        ensures value { (v : ℕ → Bool) → value v result ≡ not (value v self) }
        ensures signal { result.signal ≡ self.signal }
    {
        Literal {
            signal: self.signal,
            negated: !self.negated,
        }
    }

    /// Whether this is the same literal.
    pub(crate) fn is_same(self, other: Literal) -> bool
        ensures { IsTrue result → (v : ℕ → Bool) → value v self ≡ value v other }
    {
        self.signal == other.signal && self.negated == other.negated
    }

    /// Returns the number that AIGER has for it: twice the signal, plus 1 if it is negated.
    pub fn code(self) -> u64
        ensures { result ≡ literal_code self }
    {
        2 * u64::from(self.signal) + bit_of(self.negated)
    }
}

/// The number of a truth value.
pub(crate) fn bit_of(value: bool) -> u64
    ensures { result ≡ bit value }
{
    if value { 1 } else { 0 }
}

/// The AND of two literals, if that needs no gate: one of them is constant, or both are of the same signal.
pub(crate) fn folded(a: Literal, b: Literal) -> Option<Literal>
    ensures value { IfSome result (λ r. (v : ℕ → Bool) → v 0 ≡ false → value v r ≡ (value v a && value v b)) }
    ensures signal { IfSome result (λ r. r.signal ≤ max a.signal b.signal) }
{
    if a.signal == 0 {
        return Some(with_constant(a, b));
    }
    if b.signal == 0 {
        return Some(with_constant(b, a));
    }
    if a.signal == b.signal {
        return Some(of_one_signal(a, b));
    }
    None
}

/// The AND of a constant and a literal.
fn with_constant(known: Literal, other: Literal) -> Literal
    requires { known.signal ≡ 0 }
    ensures value { (v : ℕ → Bool) → v 0 ≡ false → value v result ≡ (value v known && value v other) }
    ensures signal { result.signal ≤ other.signal }
{
    if known.negated { other } else { FALSE }
}

/// The AND of two literals of the same signal.
fn of_one_signal(a: Literal, b: Literal) -> Literal
    requires { a.signal ≡ b.signal }
    ensures value { (v : ℕ → Bool) → v 0 ≡ false → value v result ≡ (value v a && value v b) }
    ensures signal { result.signal ≤ a.signal }
{
    if a.negated == b.negated { a } else { FALSE }
}
