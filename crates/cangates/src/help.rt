//! The help text, and the version.

/// What the program does, its faults and its statuses.
pub const HELP: &str = "\
A classical CAN controller as a circuit, proved to be the reference in each bit time

Usage: cangates COMMAND [--help]
       cangates aiger --binary
       cangates --version

Commands:
  verilog  Writes it as a Verilog-2001 module
  aiger    Writes it as an AIGER file, in the ASCII format

It writes to standard output, the same each time, and reads nothing. With --binary
the AIGER file is in the binary format, which berkeley-abc reads.

A step of the circuit with enable 1 is a bit time of classical CAN: bus is the
sampled level, and drive the level that the controller drives in the same bit time;
1 is recessive. Comments of the module describe its ports and registers; symbols do
in AIGER. event_code is the number of the event in the bit time, 0 for none:
  1 sent  2 received  3 arbitration lost  9 overload frame  10 bus off  11 recovered;
  errors: 4 bit  5 stuff  6 CRC  7 form  8 acknowledgement

Verilog has three forms of statement, a line each:
  wire n385 = n5 & ~n7;    a gate; also wire n12 = wait_identifier[4];
  assign event_code[0] = ~n4001; an output
  phase[0] <= n4711;       the next value of a register

Faults, as lines on standard error, such as cangates: P5 memory: not enough memory
  P4 write           standard output could not be written
  P5 memory          not enough memory for the command line or the circuit
  usage              unknown or missing arguments

Exit status: 0 all done; 2 usage; 3 P4; 4 P5
";

/// The program's name and its version, which is that of the file VERSION.
pub const VERSION: &str = "cangates 0.9.0\n";
