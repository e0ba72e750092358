//! The file of the controller's circuit.
ghost use Rattle.std.specs.Prelude.{◌≡◌, ◌≤◌, length, IfOk};
ghost use Rattle.cangates.specs.Files.{IsFile, text_in};

use crate::names::names;
use crate::words::Form;
use can_gates::{
    Circuit, CircuitFault, Literal, Names, Register, ascii_file, binary_file, verilog_file,
};
use can_gates_controller::controller_circuit;
use std::alloc::Global;

/// The text of the file in this form.
pub(crate) fn file(alloc: Global, form: Form) -> Result<Vec<u8>, CircuitFault>
    ensures { IfOk result (λ r. IsFile form r.items) }
{
    let chosen = names();
    let design = controller_circuit(alloc)?;
    let made = text(
        alloc,
        form,
        &chosen,
        &design.circuit,
        &design.registers,
        &design.listed,
    )?;
    Ok(made)
}

/// The text of a circuit in this form, with these names. Its last inputs are the outputs of these registers.
fn text(
    alloc: Global,
    form: Form,
    names: &Names<'_>,
    circuit: &Circuit,
    registers: &[Register],
    outputs: &[Literal],
) -> Result<Vec<u8>, CircuitFault>
    requires { length registers.now ≤ circuit.now.inputs }
    ensures { IfOk result (λ r. r.items ≡ text_in form names.now circuit.now registers.now outputs.now) }
{
    match form {
        Form::Verilog => verilog_file(alloc, names, circuit, registers, outputs),
        Form::Ascii => ascii_file(alloc, names, circuit, registers, outputs),
        Form::Binary => binary_file(alloc, names, circuit, registers, outputs),
    }
}
