//! Two ports on one bus, bit time by bit time.
use can_bus::wired;
use can_node::{PackedNode, Port};
use can_terms::Event;

/// Runs two ports on one bus until the second has received a frame, for at most `bits` bit times. Returns the bit
/// time of the reception, counted from 0. The frame is the last in the log.
pub fn received_within(
    bits: u32,
    sender: &mut PackedNode,
    receiver: &mut PackedNode,
) -> Option<u32> {
    for time in 0..bits {
        let level = wired(&[sender.drive(), receiver.drive()]);
        let _ = sender.sample(level);
        if let Some(Event::Received(_)) = receiver.sample(level) {
            return Some(time);
        }
    }
    None
}
