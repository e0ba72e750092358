//! Response time analysis of the messages of a network, proved about the course (the sequence of attempts) on the
//! bus.
//!
//! A [`Message`] is released again and again, and each frame keeps the bus no longer than `longest`, which
//! [`longest_busy`] computes exactly for an identifier, a kind and a DLC. Hits that all ports see are as frequent as
//! a [`HitRate`], the error model, allows. [`response_bound`] returns a bound on the time from a frame's release to
//! the end of its wire, on every course.
//!
//! | File | What it has | Defined in |
//! |---|---|---|
//! | `message.rt` | [`Message`] and [`HitRate`] | `specs/Messages.antt` |
//! | `longest.rt` | [`longest_busy`], how long a frame keeps the bus | `specs/FramesOf.antt` |
//! | `demand.rt` | the demand on the bus in a number of bit times: [`arrivals`] of a message; [`blocking`] by lower-priority messages | `specs/Analysis.antt` |
//! | `response.rt` | [`response_bound`], the least bound that the analysis gives | `specs/Analysis.antt`, `specs/Ends.antt` |
//! | `responses.rt` | [`Responses`], the bounds of one message after another | `specs/Analysis.antt`, `specs/Ends.antt` |
//! | `parts.rt` | [`latest_frame`], the frame whose response time is the bound, and the parts of this time: [`Latest`], of `latest.rt` | `specs/Latest.antt` |
//! | `margin.rt` | [`margin_of`], how much is left until a message misses its deadline: a [`Margin`] of a [`Strain`]; [`first_late`], the first message that may miss its deadline | `specs/Margins.antt` |
//! | `borne.rt` | [`borne_for`], for how long an error model is tolerated, wherever the hits fall | `specs/Borne.antt` |
//! | `laws.rt` | what a bound says of the levels and logs of a bus, and of frames released earlier; fifteen hits are tolerated; deadlines are kept | `specs/OnBus.antt`, `specs/Ends.antt`, `specs/Borne.antt`, `specs/Margins.antt` |
//!
//! The proof follows the course with a window (`proofs/Windows.antt`): since when the bus has had no older frame to
//! send of the message and of the higher-priority ones, and what it has sent since. `proofs/Moves.antt` has the
//! effect of each attempt on a window. Only [`margin_of`] allocates memory.
#![tactic(auto)]

mod borne;
mod demand;
mod latest;
mod laws;
mod longest;
mod margin;
mod message;
mod parts;
mod response;
mod responses;

pub use borne::{Borne, borne_for};
pub use demand::{arrivals, blocking, own_load};
pub use latest::Latest;
pub use laws::{
    bounds_hold_for_earlier_releases, deadlines_are_kept, few_hits_are_borne,
    frames_end_in_time_on_the_bus,
};
pub use longest::longest_busy;
pub use margin::{Margin, Strain, first_late, margin_of};
pub use message::{HitRate, Message};
pub use parts::latest_frame;
pub use response::{Response, response_bound};
pub use responses::Responses;
