ghost use Rattle.std.specs.Prelude.{◌≡◌, ◌≤◌, ℕ, List, All};
ghost use Rattle.std.specs.List.Sorted.{IsPermutation};
ghost use Rattle.can_frame.specs.Parts.{Parts};
ghost use Rattle.can_bus.specs.declared.offer.Offer.{Offer as Offered};
ghost use Rattle.can_bus.specs.Offers.{refused};
ghost use Rattle.can_bus.specs.Quiet.{AreDifferent, span};
ghost use Rattle.can_scenario_text.specs.declared.scenario.Scenario.{Scenario as Planned};
ghost use Rattle.can_trace.specs.OpenReport.{all_frames, queues};
ghost use Rattle.can_trace.specs.QuietReport.{AreFirst, AreReordered, AreReorderings, quiet_report};
ghost use Rattle.can_trace.specs.Report.{made_bus, report, waiting_report};
ghost use Rattle.can_trace.specs.ScenarioOffers.{IsInTimeOrder, in_time, scenario_offers};

/// Offers have exactly one order by time that keeps the order of offers with the same time. It contains the
/// same offers.
pub fn one_order_of_offers()
    ensures exists { (offers : List Offered) → IsInTimeOrder offers (in_time offers) }
    ensures only { (offers ordered : List Offered) → IsInTimeOrder offers ordered → ordered ≡ in_time offers }
    ensures same { (offers : List Offered) → IsPermutation (in_time offers) offers }
{}

/// A scenario whose frames all have time 0 runs like a bus at whose ports they are pending at the beginning.
/// This holds with and without injected bit errors. All scenarios of version 1 are of this kind.
pub fn frames_of_time_0_wait()
    ensures { (s : Planned) → All AreFirst s.ports.items → report s ≡ waiting_report s }
{}

/// No frame of a scenario is offered to a full queue.
pub fn no_offer_finds_a_full_queue()
    ensures { (s : Planned) (n : ℕ) → refused (scenario_offers s) n (made_bus s) ≡ 0 }
{}

/// The report of a quiet scenario does not depend on the order in which each port was offered its frames.
/// Two scenarios with the same number of bit times, and with the same frames at each port in any order, have
/// the same report.
pub fn offering_order_is_untold()
    ensures quiet { (bits : ℕ) (waiting others : List (List Parts)) → AreDifferent (all_frames waiting) → AreReordered waiting others →
        quiet_report bits waiting ≡ quiet_report bits others }
    ensures report { (s t : Planned) → AreReorderings s t → span (all_frames (queues s)) ≤ s.bits → report s ≡ report t }
{}
