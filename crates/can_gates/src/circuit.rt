//! Circuits, and the AND of two literals.
ghost use Rattle.std.specs.Prelude.{◌≡◌, ◌≤◌, ◌<◌, ◌-◌, ◌^◌, ◌&&◌, ◌⊎◌, [], ◌∷◌, ℕ, Bool, false, None, Some, IfOk, IfSome, is_none, length, min, max, reverse};
ghost use Rattle.can_gates.specs.Aiger.{literal_code};
ghost use Rattle.can_gates.specs.Circuit.{value, Keeps, Makes};
ghost use Rattle.can_gates.specs.Lacking.{HasSignals, Serves, lack_with};
ghost use Rattle.can_gates.specs.declared.lack.Lack.TheVariants.{Room};
ghost use Rattle.can_gates.specs.Ordered.{IsOrdered};
ghost use Rattle.can_gates.specs.Runs.{run};

use crate::chains::Chains;
use crate::lack::Lack;
use crate::literal::{FALSE, Literal, folded};
use std::alloc::{AllocError, Global};
use std::marker::Model;

/// A gate: its signal is the AND of two literals.
#[derive(Clone, Copy, Debug)]
pub struct Gate {
    /// The signal that it makes: the next one after the inputs and the previous gates.
    pub signal: u32,
    /// If a circuit made it, the side with the greater number.
    pub left: Literal,
    /// The other side.
    pub right: Literal,
}

/// AND gates after inputs, with a capacity for gates. In contracts the last gate comes first.
///
/// A gate is not made if the circuit is [full](Lack::Room), or if one of its sides is of a [signal](Lack::Signal) that
/// the circuit does not have. From then on the circuit is not [complete](Circuit::is_complete): no assignment keeps it.
#[derive(Drop)]
pub struct Circuit {
    gates: Vec<Gate>,
    /// The number of inputs: signals 1 to `inputs`.
    inputs: u32,
    /// For how many gates there are memory and signal numbers.
    room: u32,
    /// The highest signal.
    highest: u32,
    /// The index of gates by their left side.
    chains: Chains,
    /// Why it lacks a gate that a call asked for, if it does.
    lack: Option<Lack>,
}

impl Model for Circuit {
    ghost use Rattle.std.specs.Prelude.{reverse, vec_capacity};
    ghost use Rattle.can_gates.specs.Circuit.{CircuitParts};
    ghost use Rattle.can_gates.specs.Fitting.{Fits};

    ghost Value = { CircuitParts };

    ghost view = { λ c. record { inputs = c.inputs; room = c.room; highest = c.highest; gates = reverse c.gates.items; lack = c.lack } };

    ghost invariant = { λ c. Fits c.inputs c.room c.highest c.gates.items (vec_capacity c.gates) c.lack };
}

impl Circuit {
    /// Returns a circuit without gates, whose inputs are signals 1 to `inputs`. Its capacity is `room` gates, but at
    /// most 2^32 - 1 - `inputs`: signal numbers are below 2^32. Only this call allocates memory.
    pub fn new(alloc: Global, inputs: u32, room: u32) -> Result<Circuit, AllocError>
        ensures { IfOk result (λ c. c ≡ record { inputs = inputs; room = min room (4294967295 - inputs); highest = inputs; gates = []; lack = None }) }
    {
        let room = room.min(u32::MAX - inputs);
        Ok(Circuit {
            gates: Vec::with_capacity(alloc, room as usize)?,
            inputs,
            room,
            highest: inputs,
            chains: Chains::new(alloc, inputs + room, room)?,
            lack: None,
        })
    }

    /// Returns the gates, each after the gates of its sides.
    pub fn gates(&self) -> &[Gate]
        ensures { result.now ≡ reverse self.now.gates }
    {
        self.gates.as_slice()
    }

    /// Returns the number of inputs.
    pub fn inputs(&self) -> u32
        ensures { result ≡ self.now.inputs }
    {
        self.inputs
    }

    /// Returns the highest signal, of a gate or of an input.
    pub fn highest(&self) -> u32
        ensures { result ≡ self.now.highest }
    {
        self.highest
    }

    /// Returns the capacity: for how many gates there is space, with those that it has.
    pub fn room(&self) -> u32
        ensures { result ≡ self.now.room }
    {
        self.room
    }

    /// Returns why it lacks a gate that a call asked for, if it does: it is full, or it was given a signal that it does
    /// not have.
    pub fn lack(&self) -> Option<Lack>
        ensures lack { result ≡ self.now.lack }
        ensures full { result ≡ Some Room → length self.now.gates ≡ self.now.room }
    {
        self.lack
    }

    /// Returns whether it has each gate that calls asked for. If not, whatever was made of it is to be discarded.
    pub fn is_complete(&self) -> bool
        ensures { result ≡ is_none self.now.lack }
    {
        self.lack.is_none()
    }

    /// For any input values, the run of a complete circuit is an assignment that keeps it. In this assignment the
    /// inputs have these values. So statements about assignments that keep a circuit are never empty. Conversely, an
    /// assignment that keeps the circuit is the run of its own values. A law: it does nothing.
    pub fn is_kept_by_its_run(&self)
        ensures keeps { (inputs : ℕ → Bool) → self.now.lack ≡ None → inputs 0 ≡ false → Keeps (run self.now.gates inputs) self.now }
        ensures inputs { (inputs : ℕ → Bool) (s : ℕ) → s ≤ self.now.inputs → run self.now.gates inputs s ≡ inputs s }
        ensures only { (v : ℕ → Bool) (s : ℕ) → Keeps v self.now → run self.now.gates v s ≡ v s }
    {
        let _gates = &self.gates;
    }

    /// Its gates make the signals after the inputs in order, each of earlier signals, as in AIGER's binary format. A
    /// law: it does nothing.
    pub fn is_in_order(&self)
        ensures order { IsOrdered self.now.inputs self.now.highest self.now.gates }
        ensures fits { self.now.highest < 2 ^ 32 }
    {
        let _gates = &self.gates;
        let _highest = self.highest;
    }

    /// Returns the AND of two literals. No gate is needed if one literal is constant, if both are of the same signal,
    /// or if the circuit has a gate of these two. Otherwise it makes one, unless the circuit is full or does not have
    /// one of the two signals: then the circuit is incomplete from then on.
    pub fn and(&mut self, a: Literal, b: Literal) -> Literal
        ensures made { Makes self.old self.new (λ v. value v result ≡ (value v a && value v b)) }
        ensures lack { (self.new.lack ≡ self.old.lack) ⊎ (self.new.lack ≡ lack_with self.old (max a.signal b.signal)) }
        ensures serves { Serves self.old self.new (a ∷ b ∷ []) (result ∷ []) }
    {
        if let Some(known) = folded(a, b) {
            return known;
        }
        let sides = Sides::new(a, b);
        if let Some(shared) = self.shared(sides) {
            return shared;
        }
        self.gate(sides)
    }

    /// The signal of a gate with these sides, if there is one.
    fn shared(&self, sides: Sides) -> Option<Literal>
        ensures value { IfSome result (λ r. (v : ℕ → Bool) → Keeps v self.now → value v r ≡ (value v sides.left && value v sides.right)) }
        ensures signal { IfSome result (λ r. r.signal ≤ self.now.highest) }
    {
        let mut place = self.chains.last(sides.left.signal)?;
        for _ in 0..self.gates.len() {
            if let Some(made) = self.made_at(place, sides) {
                return Some(made);
            }
            place = self.chains.before(place)?;
        }
        None
    }

    /// The signal of the gate at this index, if it has these sides.
    fn made_at(&self, place: usize, sides: Sides) -> Option<Literal>
        ensures value { IfSome result (λ r. (v : ℕ → Bool) → Keeps v self.now → value v r ≡ (value v sides.left && value v sides.right)) }
        ensures signal { IfSome result (λ r. r.signal ≤ self.now.highest) }
    {
        if place >= self.gates.len() {
            return None;
        }
        let gate = self.gates[place];
        if gate.left.is_same(sides.left) && gate.right.is_same(sides.right) {
            return Some(of_signal(gate.signal));
        }
        None
    }

    /// Makes a gate with these sides; otherwise the circuit lacks it from then on.
    fn gate(&mut self, sides: Sides) -> Literal
        requires { literal_code sides.right ≤ literal_code sides.left }
        ensures made { Makes self.old self.new (λ v. value v result ≡ (value v sides.left && value v sides.right)) }
        ensures lack { self.new.lack ≡ lack_with self.old (max sides.left.signal sides.right.signal) }
        ensures highest { self.old.highest ≤ self.new.highest }
        ensures signal { result.signal ≤ self.new.highest }
    {
        if let Some(lack) = self.lack_of(sides.highest()) {
            self.lack = Some(lack);
            return FALSE;
        }
        self.added(sides)
    }

    /// Why it cannot have one more gate, if so. `signal` is the higher of the signals of the gate's sides.
    fn lack_of(&self, signal: u32) -> Option<Lack>
        ensures { result ≡ lack_with self.now signal }
    {
        if self.lack.is_some() {
            return self.lack;
        }
        if self.highest < signal {
            return Some(Lack::Signal);
        }
        if self.gates.len() >= self.room as usize {
            return Some(Lack::Room);
        }
        None
    }

    /// Makes a gate with these sides.
    fn added(&mut self, sides: Sides) -> Literal
        requires order { literal_code sides.right ≤ literal_code sides.left }
        requires lack { lack_with self.old (max sides.left.signal sides.right.signal) ≡ None }
        ensures made { Makes self.old self.new (λ v. value v result ≡ (value v sides.left && value v sides.right)) }
        ensures lack { self.new.lack ≡ None }
        ensures highest { self.old.highest ≤ self.new.highest }
        ensures signal { result.signal ≤ self.new.highest }
    {
        let signal = self.highest + 1;
        let gate = Gate {
            signal,
            left: sides.left,
            right: sides.right,
        };
        // There is capacity, so no memory is allocated.
        let _ = self.gates.push(gate);
        self.chains.add(sides.left.signal);
        self.highest = signal;
        of_signal(signal)
    }
}

/// A signal, not negated.
#[tactic(auto, unfolding(crate::specs::Circuit::value))]
fn of_signal(signal: u32) -> Literal
    ensures value { (v : ℕ → Bool) → value v result ≡ v signal }
    ensures signal { result.signal ≡ signal }
{
    Literal {
        signal,
        negated: false,
    }
}

/// The two sides of a gate.
#[derive(Clone, Copy)]
struct Sides {
    left: Literal,
    right: Literal,
}

impl Sides {
    /// Two literals, the one with the greater number first.
    fn new(a: Literal, b: Literal) -> Sides
        ensures value { (v : ℕ → Bool) → (value v result.left && value v result.right) ≡ (value v a && value v b) }
        ensures order { literal_code result.right ≤ literal_code result.left }
        ensures signals { max result.left.signal result.right.signal ≡ max a.signal b.signal }
    {
        if a.code() < b.code() {
            Sides { left: b, right: a }
        } else {
            Sides { left: a, right: b }
        }
    }

    /// The higher of the two signals.
    fn highest(self) -> u32
        ensures { result ≡ max self.left.signal self.right.signal }
    {
        self.left.signal.max(self.right.signal)
    }
}
