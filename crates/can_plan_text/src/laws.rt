//! Laws: functions with an empty body whose contract is a theorem.
ghost use Rattle.std.specs.Prelude.{◌≡◌, ℕ, List};
ghost use Rattle.can_plan_text.specs.declared.field.PlanField.{PlanField as Wrong};
ghost use Rattle.can_plan_text.specs.declared.plan.Plan.{Plan as Network};
ghost use Rattle.can_plan_text.specs.Plans.{IsPlanText, IsWrongPlanField};

/// At most one field of bytes counts as the wrong one, and none if they are the text of a network.
pub fn one_plan_field()
    ensures no_field { (bytes : List ℕ) (plan : Network) (wrong : Wrong) → IsPlanText bytes plan → IsWrongPlanField wrong bytes → ⊥ }
    ensures one_field { (bytes : List ℕ) (wrong other : Wrong) → IsWrongPlanField wrong bytes → IsWrongPlanField other bytes → wrong ≡ other }
{}
