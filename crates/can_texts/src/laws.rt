//! Each input has exactly one output.
ghost use Rattle.std.specs.Prelude.{◌≡◌, ℕ, List};
ghost use Rattle.can_frame.specs.declared.level.Level.{Level as Bit};
ghost use Rattle.can_texts.specs.Coded.{Codes};
ghost use Rattle.can_texts.specs.Checked.{Checks};
ghost use Rattle.can_texts.specs.Decoded.{Finds, FullAnswer};
ghost use Rattle.can_texts.specs.declared.traces.finding.Finding.{Finding as Findings};

use can_frame::one_text_a_frame;

/// Lines of frames have at most one output.
pub fn one_answer()
    ensures { (lines : List (List ℕ)) (a b : List ℕ) → Codes lines a → Codes lines b → a ≡ b }
{
    one_text_a_frame();
}

/// Lines of vectors have at most one output, and at most one number of them passes.
pub fn one_check()
    ensures { (lines : List (List ℕ)) (m n : ℕ) (a b : List ℕ) → Checks lines m a → Checks lines n b → (m ≡ n) × (a ≡ b) }
{
    one_text_a_frame();
}

/// A trace contains exactly one list of frames and faults, and each input has exactly one full output.
pub fn one_decoding()
    ensures some { (place : ℕ) (levels : List Bit) → (found : List Findings) × Finds place levels found }
    ensures only { (place : ℕ) (levels : List Bit) (f g : List Findings) → Finds place levels f → Finds place levels g → f ≡ g }
    ensures answer { (input : List ℕ) → (output : List ℕ) × FullAnswer input output }
    ensures only_answer { (input a b : List ℕ) → FullAnswer input a → FullAnswer input b → a ≡ b }
{}
