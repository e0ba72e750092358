//! The help text, and the version.

/// What the program does, its faults and its statuses.
pub const HELP: &str = "\
Proved reference of the conformance kit for classical CAN controllers

Usage: canhold COMMAND [--help]
       canhold --version

Commands:
  expect  Writes a kit document, and then what the reference does in its cases
  judge   Compares each transcript of a kit document with the reference
  play    Replies to a runner of the kit, line by line, as the reference's adapter

expect and judge read a kit document from standard input: tables of TOML,
[[case]] and [[transcript]], as conformance/cases and conformance/transcripts
have them. expect writes the document and a [[transcript]] for each case:
levels, events, counters, the end. judge writes a line for each transcript,
and the count:
  pass suspend-reception-at-4
  fail suspend-after-error at 253: drove 0 not 1; suspend 7, sender; ...
  passed 1 failed 1 void 0 skipped 0 of 2, 399 without a transcript
A failure has the first difference, the state of the reference, and the rule.
The count ends with the number of cases without a transcript, if there are any.

play reads standard input and replies to each line before it reads the next one:
  case NAME START  begins a case, START is idle or joining; reply: ready
  offer FRAME      queues a frame, such as S 123 D 2 aa55; no reply
  hold N           asks for 0 to 2 overload frames; no reply
  play LEVELS      1 to 4096 bit times, 0 dominant, 1 recessive, f forced;
                   reply: event K EVENT for each event, and drove LEVELS
  end              reply: state STATE TEC REC
  quit             ends the program
The reply to any other line begins with error.

Faults, as lines on standard error, such as canhold: P5 memory: not enough memory
  P2 FIELD           the first field of the document that is wrong, such as
                     P2 case[3].tester[1] of CASE, and what it must be; CASE is
                     the name in its table, if there is one; nothing is written
  P3 read, P4 write  standard input could not be read, standard output not be written
  P5 memory          not enough memory for the command line, a document or a case
  P6 long            the runner's lines have more than 2^63 bytes
  usage               unknown or missing arguments
  transcripts differ  not all transcripts pass
  nothing judged      the document has no transcript

Exit status: 0 all done, and all pass; 1 P2, P6, or not all pass; 2 usage;
3 P3, P4; 4 P5; 5 nothing judged
";

/// The program's name and its version, which is that of the file VERSION.
pub const VERSION: &str = "canhold 0.9.0\n";
