//! Laws of the definitions: each is a function with an empty body, and its contract is the theorem.
ghost use Rattle.std.specs.Prelude.{◌≡◌, IsSomeAnd};
ghost use Rattle.can_conform.specs.declared.judging.Failure.{Failure as FirstDifference};
ghost use Rattle.can_conform.specs.declared.judging.Verdict.{Verdict as Judgement};
ghost use Rattle.can_terms.specs.declared.script.Script.{Script as Case};
ghost use Rattle.can_terms.specs.declared.transcript.Transcript.{Transcript as Record};
ghost use Rattle.can_terms.specs.Cases.{IsTold};
ghost use Rattle.can_conform.specs.Transcripts.{changes_of, events_of, levels_of, Agrees, IsTranscript, TellsRun};
ghost use Rattle.can_conform.specs.Verdicts.{IsFirst, IsVerdict};

/// A case has exactly one transcript: the levels, events and counter changes of its run. Each transcript of the case
/// has just these, and agrees with the run.
pub fn one_transcript()
    ensures exists { (s : Case) → TellsRun s (levels_of s) (events_of s) (changes_of s) }
    ensures levels { (s : Case) (told : Record) → IsTranscript s told → told.drove.items ≡ levels_of s }
    ensures events { (s : Case) (told : Record) → IsTranscript s told → IsSomeAnd told.events (λ events. events.items ≡ events_of s) }
    ensures counters { (s : Case) (told : Record) → IsTranscript s told → IsSomeAnd told.counters (λ changes. changes.items ≡ changes_of s) }
    ensures agrees { (s : Case) (told : Record) → IsTranscript s told → Agrees s told }
{}

/// A transcript that `judge` accepts has exactly one verdict: it agrees with the run, or has one first difference. No
/// transcript has both, or two verdicts.
pub fn one_verdict()
    ensures some { (s : Case) (told : Record) → IsTold told → (verdict : Judgement) × IsVerdict s told verdict }
    ensures apart { (s : Case) (told : Record) (failure : FirstDifference) → Agrees s told → IsFirst s told failure → ⊥ }
    ensures first { (s : Case) (told : Record) (one other : FirstDifference) → IsFirst s told one → IsFirst s told other → one ≡ other }
    ensures one { (s : Case) (told : Record) (one other : Judgement) → IsVerdict s told one → IsVerdict s told other → one ≡ other }
{}
