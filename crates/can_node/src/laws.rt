//! Laws of the definitions: functions that do nothing and ensure the law.
ghost use Rattle.std.specs.Prelude.{ℕ, ◌≡◌, ◌↔◌, List, [], Some, None, remove};
ghost use Rattle.can_frame.specs.Parts.{Parts};
ghost use Rattle.can_node.specs.Ports.{waiting, without};
ghost use Rattle.can_node.specs.Waiting.{IsFirstOfField, IsWaiting, NoneOfField};

/// The pending frame is the one with the highest priority in the queue; of one arbitration field, the first in the
/// queue. An empty queue, and no other, has none. The frame that leaves the queue is the first with its arbitration
/// field.
pub fn first_frame_waits()
    ensures waits { (queue : List Parts) (f : Parts) → (waiting queue ≡ Some f) ↔ IsWaiting queue f }
    ensures none { (queue : List Parts) → (waiting queue ≡ None) ↔ (queue ≡ []) }
    ensures leaves { (queue : List Parts) (f : Parts) (place : ℕ) → IsFirstOfField queue f place → without f queue ≡ remove queue place }
    ensures stays { (queue : List Parts) (f : Parts) → NoneOfField queue f → without f queue ≡ queue }
{}
