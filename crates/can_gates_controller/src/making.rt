//! Makes a controller as a circuit of its own.
ghost use Rattle.std.specs.Prelude.{◌≡◌, None, IfOk};
ghost use Rattle.can_gates_controller.specs.Runs.{StartsZero, StartsIdle, Resets, IsController, RunsAlike, HasPorts};

use crate::design::Design;
use crate::listing::{list_outputs, starting};
use crate::signals::{INPUTS, input_ports, registers};
use crate::stepping::step;
use can_gates::{Circuit, CircuitFault};
use std::alloc::Global;

/// The capacity of the circuit, in gates: more than a quarter above what it has.
const ROOM: u32 = 9216;

/// Returns a controller as a circuit that lacks no gate. Its registers start with 0, which is an idle controller. After
/// a reset they hold an idle controller, or a joining one. In each step of each run its outputs are those of can_mac's
/// controller.
pub fn controller_circuit(alloc: Global) -> Result<Design, CircuitFault>
    ensures complete { IfOk result (λ d. d.circuit.lack ≡ None) }
    ensures zero { IfOk result (λ d. StartsZero d) }
    ensures starts { IfOk result (λ d. StartsIdle d) }
    ensures resets { IfOk result (λ d. Resets d) }
    ensures steps { IfOk result (λ d. IsController d) }
    ensures runs { IfOk result (λ d. RunsAlike d) }
    ensures ports { IfOk result (λ d. HasPorts d) }
{
    let mut circuit = Circuit::new(alloc, INPUTS, ROOM)?;
    let inputs = input_ports();
    let held = registers();
    let (next, outputs) = step(&mut circuit, &held, &inputs);
    if let Some(lack) = circuit.lack() {
        return Err(CircuitFault::Incomplete(lack));
    }
    let registers = starting(alloc, &next)?;
    let listed = list_outputs(alloc, &outputs)?;
    Ok(Design {
        circuit,
        inputs,
        held,
        outputs,
        registers,
        listed,
    })
}
