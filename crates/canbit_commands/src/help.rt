//! The help texts, except the lines that `clap` writes itself. Each fault's code is explained where it
//! can occur; docs/CODES.md says what to do about it.

/// The line of usage of the program.
pub const USAGE: &str = "canbit <COMMAND> [--help]";

/// The details of the program.
pub const PROGRAM: &str = "\
Each subcommand reads standard input and writes standard output, as
  echo 'S 000 D 0' | canbit encode
canbit COMMAND --help has the form of both. A fault is one line on standard error, as
  canbit: P7 line 2 X4 at 9

Exit status:
  0  all done, and all vectors passed; or help was asked for
  1  the input has a fault, or some vector differs
  2  canbit: usage: no subcommand, an unknown one, or other words than --help behind it
  3  standard input could not be read, or standard output not be written
  4  no memory";

/// The details of `encode`.
pub const ENCODE: &str = "\
Standard input: a frame a line, standard or extended, data or remote, with its DLC and data.
  S 123 D 2 aa55
  E 18db33f1 R 8

Standard output: for each frame the levels that its sender drives, 0 dominant and 1 recessive.
  00000100000100000100000100000100000100001111111111

Faults:
  P7 line 2 X4 at 9  line 2, counted from 1, is no frame; its fault, and the place in the line:
                     X1 kind letter, X2 identifier, X3 direction, X4 DLC, X5 data,
                     X6 bytes behind a whole frame
  P6 long            the input has more than 2^63 bytes
  P3 read, P4 write  standard input could not be read, standard output not be written
  P5 memory          no memory for the words of the command line

Exit status: 0 all done; 1 P6, P7; 2 wrong use; 3 P3, P4; 4 P5";

/// The details of `decode`.
pub const DECODE: &str = "\
Standard input: a level for each bit time, 0 dominant and 1 recessive. Blanks and line ends are
skipped.
  11100000100000100000100000100000100000100001011111111

Standard output: a line for each frame and each fault on the bus, places counted from 0.
  3 S 000 D 0 ack      a frame, from level 3 on, acknowledged; or noack. Behind it srr0, r1, r0,
                       eof0: SRR or the last level of the end of frame was dominant, r1 or r0
                       recessive
  131 fault C3 at 136  no frame from level 131 on, since of level 136:
                       C1 the input ends in the frame, C3 stuff error, C4 CRC error,
                       C5 form error. C2, no start of frame, can't come: recessive levels
                       before a frame are skipped

Faults:
  P1 byte 13         the byte at place 13, counted from 0, is no level
  P6 long            the input has more than 2^63 bytes
  P3 read, P4 write  standard input could not be read, standard output not be written
  P5 memory          no memory for the words of the command line

Exit status: 0 all done, with or without faults on the bus; 1 P1, P6; 2 wrong use; 3 P3, P4; 4 P5";

/// The details of `run`.
pub const RUN: &str = "\
Standard input: a scenario, in TOML.
  version = 1
  bits = 93              # bit times, 0 to 1000000
  in = [[0, 16]]         # the bus is inverted 16 bit times after attempt 0 began; also
                         # at = [time, ..] and view = [[time, port], ..]
  [[port]]               # 1 to 64 of them
  queue = [\"S 000 D 0\"]  # also log = entries, join = true, hold = overload frames
  [[port]]
With version = 2 each frame stands with the bit time before which it is offered, and there are no
at, in and view:
  queue = [[50, \"S 000 D 0\"], [0, \"S 001 D 0\"]]

Standard output: the report, the levels of the bus and of each port its state, error counters and log.
  bits 93
  00000100000100001000000000000111111111110000010000010000010000010000010000010000101111111111 ..
  port 0 active tec 7 rec 0 missed 0
    sent S 000 D 0

Faults:
  P2 port[0].log     that field is wrong: the first, in the order of docs/FORMATS.md
  P3 read, P4 write  standard input could not be read, standard output not be written
  P5 memory          no memory for the input, the scenario or the bus

Exit status: 0 all done; 1 P2; 2 wrong use; 3 P3, P4; 4 P5";

/// The details of `check`.
pub const CHECK: &str = "\
Standard input: a vector a line, a frame and the levels that its sender should drive.
  S 001 D 0 = 00000100000101000001000100010000100111111111111

Standard output: ok, or differs at the first place that differs, for each; and how many passed.
  ok
  passed 1 of 1

Faults:
  P7 line 2 X4 at 9  line 2, counted from 1, has no frame before its ' = '; its fault, and the place:
                     X1 kind letter, X2 identifier, X3 direction, X4 DLC, X5 data,
                     X6 bytes behind a whole frame
  P1 byte 13         the byte at place 13, counted from 0, is no level, or a line's 158th
  P6 long            the input has more than 2^63 bytes
  P3 read, P4 write  standard input could not be read, standard output not be written
  P5 memory          no memory for the words of the command line
  vectors differ     all is written, and some line is not ok

Exit status: 0 all ok; 1 vectors differ, P1, P6, P7; 2 wrong use; 3 P3, P4; 4 P5";
