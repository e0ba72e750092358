//! The law that bounds apply to the frames of worst cases, as a function with an empty body.
ghost use Rattle.std.specs.Prelude.{ℕ, ◌≤◌, List};
ghost use Rattle.can_plan.specs.Messages.{IsIn, IsMessageSet};
ghost use Rattle.can_plan_text.specs.Plans.{IsPlanText, messages_of};
ghost use Rattle.can_plan_text.specs.declared.plan.Plan.{Plan as Network};
ghost use Rattle.can_plan_text.specs.declared.plan.Planned.{Planned as Message};
ghost use Rattle.can_plan_text.specs.declared.case.WorstCase.{WorstCase as Case};
ghost use Rattle.can_plan_text.specs.Keeping.{AreSized, KeepToMessages, offers_of};
ghost use Rattle.can_plan_text.specs.Worst.{IsWorstCase};

/// The frames of a worst case come from releases that keep to the messages. So the bound of each message applies to
/// them.
///
/// - `sized`: each message of a document has the right longest time on the bus.
/// - `keep`: all offers are delayed by `delay` bit times, which no jitter exceeds, because the first frame of each
///   message may have been released before the run.
pub fn worst_cases_keep_to_messages()
    ensures sized { (document : List ℕ) (plan : Network) → IsPlanText document plan → AreSized plan.messages.items }
    ensures keep { (messages : List Message) (place : ℕ) (worst : Case) (delay : ℕ) → IsMessageSet (messages_of messages) → AreSized messages →
        IsWorstCase messages place worst → ((m : Message) → IsIn messages m → m.message.jitter ≤ delay) →
        KeepToMessages (messages_of messages) delay (offers_of worst) }
{}
