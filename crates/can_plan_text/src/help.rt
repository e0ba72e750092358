//! The help text, and the version.

/// What the program does, its faults and its statuses.
pub const HELP: &str = "\
Proved response time analysis of a CAN network: an upper bound for each message

Usage: canplan [--help]
       canplan --details
       canplan --timeline MESSAGE
       canplan --version

canplan reads a network, a TOML document, from standard input. For each message it
prints an upper bound on the time from the release of a frame to its end:
  version = 1
  rate = 125000        bits a second, at most 1000000: all times are microseconds;
                       with 0, the default, bit times
  [errors]             bit errors that all nodes see; without this table, none
  burst = 1            how many may come at once, at most 65535; default 0
  spacing = 80000      after this time one more may come; with 0, the default, none
  [[message]]          1 to 512 of them, each with its own identifier or kind
  frame = 'S 100 D'    S or E, identifier, D or R, as in a frame text
  dlc = 8              0 to 15; default 8
  period = 5000        the shortest time between two releases
  jitter = 100         the longest time from release to queuing; default 0
  deadline = 5000      for the time from release to end; default the period
  name = 'Speed'       at most 64 characters, and no other message's; optional

The output is a line for the network, a line for each message, highest priority
first, and a line for the network again. All times are in bit times. For
S 100 D, S 200 D and S 300 D with dlc 7 and periods of 303, 427 and 427:
  network messages 3 load 0.971 rate 0
  S 100 D 7 longest 122 blocking 121 bound 240 deadline 303 slack 63 ok
  S 200 D 7 longest 121 blocking 121 bound 361 deadline 427 slack 66 ok
  S 300 D 7 longest 122 blocking 0 bound 422 deadline 427 slack 5 ok
  load 0.971 late 0 of 3
If the bound is above the deadline, or there is none, late replaces ok. A name ends
its line, such as name \"Speed\". With errors a last line says for how long no node
can become error passive, here for burst 1 and spacing 10000:
  hits at most 15 within 149999

With --details, lines below each message say which frame of a busy period has the
longest response time, counted from 0, and what the bound consists of:
  S 300 D 7 longest 122 blocking 0 bound 422 deadline 427 slack 5 ok
    latest frame 1 start 730
    jitter 0
    blocking 0
    earlier frames 1 bits 122
    before frames 3 bits 366 of S 100 D 7
    before frames 2 bits 242 of S 200 D 7
    hits 0 bits 0
    wire 119
    less periods 1 bits 427
If no message is late, two last lines say by how much all periods may be shorter,
and how many more bit errors (hits) may come at once, before one is late:
  shorter periods 1 per cent ok 2 per cent late S 300 D 7
  more hits 0 ok 1 late S 100 D 7

With --timeline it writes a scenario for canbit run instead: the worst case of
MESSAGE, such as 'S 300 D', without bit errors. It and all messages of higher
priority are queued at bit time 1, and then as often as their periods allow; one
of lower priority is queued a bit time earlier.

Faults, as lines on standard error, such as canplan: P5 memory: not enough memory
  P2 FIELD           the first field of the document that is wrong, such as
                     P2 message[3].period, and what it must be; nothing is written
  P3 read, P4 write  standard input could not be read, standard output not be written
  P5 memory          not enough memory for the command line or the document
  usage              unknown or missing arguments
  message unknown    no message of the network has that frame
  timeline too long  the busy period has more than 999999 bit times, or no end
  deadlines missed   some message is late

Exit status: 0 all done, and each message is ok; 1 P2, unknown, too long, or
some message is late; 2 usage; 3 P3, P4; 4 P5
";

/// The program's name and its version, which is that of the file VERSION.
pub const VERSION: &str = "canplan 0.9.0\n";
