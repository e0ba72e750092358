//! A message's longest frame.
ghost use Rattle.std.specs.Prelude.{◌≡◌, ◌≤◌, ◌↔◌, [], All, Contains, IfSome, IsNone};
ghost use Rattle.can_frame.specs.Parts.{IsFrame};
ghost use Rattle.can_longest.specs.Longest.{with_bytes};
ghost use Rattle.can_plan_text.specs.Worst.{IsBlocker, IsLongestFrame};

use crate::plan::Planned;
use can_frame::{Frame, Id};
use can_longest::LongestWires;

/// The greatest DLC.
const MOST_DLC: u8 = 15;

/// Returns the one of these lower-priority messages that can block the longest, if there are any.
pub(crate) fn blocker_of(lower: &[Planned]) -> Option<Planned>
    ensures { IsBlocker lower.now result }
{
    match longest_of(lower) {
        Some(planned) => Some(*planned),
        None => None,
    }
}

/// Returns the message whose frames keep the bus the longest.
fn longest_of(messages: &[Planned]) -> Option<&Planned>
    ensures none { IsNone result ↔ (messages.now ≡ []) }
    ensures listed { IfSome result (λ p. Contains messages.now p.now) }
    ensures longest { IfSome result (λ p. All (λ q. q.message.longest ≤ p.now.message.longest) messages.now) }
{
    messages
        .iter()
        .max_by_key(|planned| planned.message.longest)
}

/// Returns the frame of the message with data that make it the longest. A DLC above 15, which no document has, counts
/// as 15.
pub(crate) fn longest_frame(wires: &LongestWires, planned: &Planned) -> Frame
    ensures { IsLongestFrame planned.now result }
{
    let id = planned.head.id();
    let remote = planned.head.is_remote();
    let dlc = planned.dlc.min(MOST_DLC);
    frame_with(id, remote, dlc, &wires.longest_data(id, remote, dlc))
}

/// Returns the frame with these data.
fn frame_with(id: Id, remote: bool, dlc: u8, bytes: &[u8]) -> Frame
    requires { IsFrame (with_bytes id remote dlc bytes.now) }
    ensures { result ≡ with_bytes id remote dlc bytes.now }
{
    if remote {
        Frame::remote(id, dlc).unwrap()
    } else {
        Frame::data(id, dlc, bytes).unwrap()
    }
}
