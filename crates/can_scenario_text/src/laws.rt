ghost use Rattle.std.specs.Prelude.{◌≡◌, ℕ, List};
ghost use Rattle.can_stream.specs.declared.field.Field.{Field as Wrong};
ghost use Rattle.can_scenario_text.specs.declared.scenario.Scenario.{Scenario as Planned};
ghost use Rattle.can_scenario_text.specs.Scenarios.{AreSameScenarios, IsWrongScenarioField, IsScenarioText};

/// Bytes describe at most one scenario. Bytes that describe one have no wrong field; any others have
/// at most one.
pub fn one_scenario()
    ensures scenario { (bytes : List ℕ) (s t : Planned) → IsScenarioText bytes s → IsScenarioText bytes t → AreSameScenarios s t }
    ensures no_field { (bytes : List ℕ) (s : Planned) (wrong : Wrong) → IsScenarioText bytes s → IsWrongScenarioField wrong bytes → ⊥ }
    ensures one_field { (bytes : List ℕ) (wrong other : Wrong) → IsWrongScenarioField wrong bytes → IsWrongScenarioField other bytes → wrong ≡ other }
{}
