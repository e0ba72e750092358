//! The worst-case response time of a message.
ghost use Rattle.std.specs.Prelude.{◌≡◌, ◌<◌, IfSome, Some, false, slice_get};
ghost use Rattle.can_plan.specs.declared.message.Message.{Message as Sent};
ghost use Rattle.can_plan.specs.Ends.{EndAlways};
ghost use Rattle.can_plan.specs.FramesOf.{IsLongestBusy};
ghost use Rattle.can_plan.specs.Messages.{IsMessageSet, most_hits};

use can_frame::{Frame, Id};
use can_longest::LongestWires;
use can_plan::{HitRate, Message, longest_busy, response_bound};

/// Bounds are searched with numbers up to this limit.
const LIMIT: u32 = 1_000_000;

/// A message of data frames with this identifier and DLC, released once a period, and offered when they are released.
pub fn message(wires: &LongestWires, id: Id, dlc: u8, period: u32) -> Message
    requires { dlc < 16 }
    ensures { IsLongestBusy id false dlc result.longest }
{
    Message {
        field: Frame::data_of_number(id, dlc, 0).key(),
        longest: longest_busy(wires, id, false, dlc),
        period,
        jitter: 0,
    }
}

/// The bound on the time from the release of a frame of the message at this place to the end of its end of frame, if
/// the analysis gives one. The messages are in priority order.
pub fn latest_end(messages: &[Message], place: usize, rate: &HitRate) -> Option<u64>
    ensures { (message : Sent) → slice_get messages.now place ≡ Some message → IsMessageSet messages.now →
        IfSome result (EndAlways (most_hits rate.now) messages.now message) }
{
    response_bound(messages, place, rate, LIMIT)
}
