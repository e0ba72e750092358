//! A controller as a circuit of its own.
use crate::ports::{InputPorts, OutputPorts};
use crate::registers::Registers;
use can_gates::{Circuit, Literal, Register};

/// A controller as a circuit: inputs, registers and outputs.
#[derive(Drop)]
pub struct Design {
    /// The circuit.
    pub circuit: Circuit,
    /// Its inputs.
    pub inputs: InputPorts,
    /// The values of its registers.
    pub held: Registers,
    /// Its outputs.
    pub outputs: OutputPorts,
    /// Its registers, which are the circuit's last inputs, in the order of a file.
    pub registers: Vec<Register>,
    /// Its outputs, in the order of a file.
    pub listed: Vec<Literal>,
}
