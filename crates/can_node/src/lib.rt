//! Ports: CAN nodes, each a controller with a queue of frames to send and a log of the frames that it sent and
//! received. (Bosch CAN 2.0 part B, sections 2, 3.2 and 5)
//!
//! [`Port`] is the interface that a bus needs. [`Node`] is a port that allocates all of its memory when it is made.
//! [`listen`] lets a port sample levels. Its contract states what is then true of them, whatever they are: each frame
//! that the port reports was on the bus, and between an error and the next frame the bus was recessive.
//!
//! | File | What it has | Defined in |
//! |---|---|---|
//! | `port.rt` | [`Port`], the interface of a port | `specs/Ports.antt`, `specs/Passing.antt` |
//! | `entry.rt` | [`Entry`], a frame in a log | |
//! | `node.rt` | [`Node`], a controller with a queue and a log: [`PlainNode`], [`PackedNode`] | `specs/Ports.antt` |
//! | `either.rt` | [`EitherNode`], a port of either kind | |
//! | `alike.rt` | [`sample_both`]: ports of any kinds that are in the same state stay alike | `specs/Ports.antt` |
//! | `copying.rt` | a copy of a list, with capacity for more | |
//! | `queue.rt` | the queue, and its pending frame | `specs/Ports.antt`, `specs/Waiting.antt` |
//! | `queue/winners.rt` | a tournament of the slots of a queue | `specs/Tournament.antt` |
//! | `queue/entrant.rt` | the entrants of the tournament | `specs/Tournament.antt` |
//! | `log.rt` | the log of sent and received frames | `specs/Ports.antt` |
//! | `listening.rt` | [`listen`], and what a port claims of the levels | `specs/Listening.antt` |
//! | `laws.rt` | which frame of a queue is pending | `specs/Waiting.antt` |
//!
//! The queue has a slot for each frame, in the order of the offers, and a tournament over the slots. So an offer, and
//! a frame that leaves, take time logarithmic in the number of frames. The pending frame is stored, and no bit time
//! has to search for it. `Node`, its queue and its log keep their invariants in ghost fields, because a law of a
//! trait, such as `valid` of [`Port`], is about every value of the implementing type.
//!
//! Crates that use this one find lemmas in `proofs/`; `proofs/Lib.antt` lists the files. `Rows` has hand-computed
//! test vectors for the definitions.
#![tactic(auto)]

mod alike;
mod copying;
mod either;
mod entry;
mod laws;
mod listening;
mod log;
mod node;
mod port;
mod queue;

pub use alike::sample_both;
pub use either::EitherNode;
pub use entry::Entry;
pub use laws::first_frame_waits;
pub use listening::listen;
pub use node::{Node, PackedNode, PlainNode};
pub use port::Port;
