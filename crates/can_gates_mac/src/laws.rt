//! Laws that connect one bit time with the next.
ghost use Rattle.std.specs.Prelude.{◌≡◌, ℕ, Bool, Option, None};
ghost use Rattle.can_terms.specs.declared.event.Event.{Event};
ghost use Rattle.can_mac.specs.State.{MacState, idle, joining};
ghost use Rattle.can_mac.specs.Machine.{holding};
ghost use Rattle.can_gates_mac.specs.declared.registers.Controller.{Controller as ControllerOf};
ghost use Rattle.can_gates_mac.specs.Nibbles.{nibble};
ghost use Rattle.can_gates_mac.specs.Stepping.{Holds, IsStep, state_numbers, reset_numbers};

use crate::nibble::Nibble;
use crate::registers::Controller;
use crate::wires::Wires;

/// Registers that take the values of a step hold the controller after it. Registers that are all 0 hold an idle
/// controller; those that are 0 except for the phase, which is that of joining, hold a joining one. A law: it does
/// nothing.
pub fn a_step_is_the_next_state()
    ensures next { (v : ℕ → Bool) (k : ControllerOf) (after : MacState × Option Event) → IsStep v k after → Holds v k after.0 }
    ensures idle { state_numbers idle None ≡ reset_numbers 0 }
    ensures joining { state_numbers joining None ≡ reset_numbers 1 }
{}

/// Returns the same controller, with a request for this many overload frames in place of an earlier one.
pub fn asking(held: Controller, wish: Nibble) -> Controller
    ensures { (v : ℕ → Bool) (m : MacState) (n : ℕ) → Holds v held m → nibble v wish ≡ n → Holds v result (holding n m) }
{
    Controller {
        wires: Wires {
            pending: wish,
            ..held.wires
        },
        counters: held.counters,
    }
}
