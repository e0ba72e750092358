//! The numbers of states in C.
ghost use Rattle.std.specs.Prelude.{◌≡◌};
ghost use Rattle.can_c.specs.Codes.{state_code as state_code_of};

use can_fault::State;

/// Returns the number of a state of fault confinement.
pub fn state_code(state: State) -> u8
    ensures { result ≡ state_code_of state }
{
    match state {
        State::Active => 0,
        State::Passive => 1,
        State::BusOff => 2,
    }
}
