//! The elements of a queue.
ghost use Rattle.std.specs.Prelude.{IfSome, IfNone, OnSome};
ghost use Rattle.toml.specs.View.{view};
ghost use Rattle.document_values.specs.Values.{IsFrameValue};
ghost use Rattle.can_scenario_text.specs.Scenarios.{IsQueueElement, IsTimedFrameValue, SaysQueueElement, SaysTimedFrame};

use crate::scenario::TimedFrame;
use crate::scenario::version::Version;
use document_values::{frame, number, two_of};
use toml::Value;

/// The latest bit time before which a frame may be offered.
const MOST_TIME: u64 = 1_000_000;

/// The frame that an element of a queue describes, with the time at which it is offered.
pub(crate) fn queued(version: Version, value: &Value) -> Option<TimedFrame>
    ensures said { IfSome result (SaysQueueElement version (view value.now)) }
    ensures met { OnSome result (IsQueueElement version (view value.now)) }
    ensures unmet { IfNone result (¬ IsQueueElement version (view value.now)) }
{
    match version {
        Version::One => first_frame(value),
        Version::Two => timed_frame(value),
    }
}

/// The frame with this text, offered at time 0.
fn first_frame(value: &Value) -> Option<TimedFrame>
    ensures said { IfSome result (SaysQueueElement Version.One (view value.now)) }
    ensures met { OnSome result (IsFrameValue (view value.now)) }
    ensures unmet { IfNone result (¬ IsFrameValue (view value.now)) }
{
    let frame = frame(value)?;
    Some(TimedFrame { time: 0, frame })
}

/// The time and the frame of an array of a time and a frame text.
fn timed_frame(value: &Value) -> Option<TimedFrame>
    ensures said { IfSome result (SaysTimedFrame (view value.now)) }
    ensures met { OnSome result (IsTimedFrameValue (view value.now)) }
    ensures unmet { IfNone result (¬ IsTimedFrameValue (view value.now)) }
{
    let (time, text) = two_of(value)?;
    let time = number(time, MOST_TIME)?;
    let frame = frame(text)?;
    Some(TimedFrame { time, frame })
}
