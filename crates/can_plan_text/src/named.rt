//! Which message has a name.
ghost use Rattle.std.specs.Prelude.{◌≡◌, ◌≢◌, ℕ, MatchOption, Some, slice_get};
ghost use Rattle.can_plan_text.specs.declared.plan.Planned.{Planned as Message};
ghost use Rattle.can_plan_text.specs.Timelines.{IsNamedAt, IsUnnamed};

use crate::messages::head_of;
use crate::plan::Planned;
use can_frame::Key;

/// Returns the place of the message with this name, which is the text of one of its frames before the space and the
/// DLC.
pub(crate) fn place_of(messages: &[Planned], name: &[u8]) -> Option<usize>
    ensures { MatchOption result (IsUnnamed name.now messages.now) (IsNamedAt name.now messages.now) }
{
    place_of_field(messages, head_of(name)?.key())
}

/// Returns the place of the message whose frames have this arbitration field.
fn place_of_field(messages: &[Planned], field: Key) -> Option<usize>
    ensures { MatchOption result ((n : ℕ) (p : Message) → slice_get messages.now n ≡ Some p → p.message.field ≢ field)
        (λ n. (p : Message) × (slice_get messages.now n ≡ Some p) × (p.message.field ≡ field)) }
{
    for (place, planned) in messages.iter().enumerate() {
        if planned.message.field == field {
            return Some(place);
        }
    }
    None
}
