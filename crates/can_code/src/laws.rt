ghost use Rattle.std.specs.Prelude.{◌≡◌, ◌∷◌, List, length};
ghost use Rattle.can_frame.specs.declared.level.Level.{Level as Bit};
ghost use Rattle.can_frame.specs.declared.level.Level.TheVariants.{Dominant};
ghost use Rattle.can_wire.specs.Stuffing.{Stuffs, stuffed};
ghost use Rattle.can_code.specs.declared.fault.CodeFault.{CodeFault as Fault};
ghost use Rattle.can_code.specs.declared.fault.CodeFaultKind.TheVariants.{Short};
ghost use Rattle.can_code.specs.declared.front.Place.TheVariants.{CrcDelimiter};
ghost use Rattle.can_wire.specs.Layout.{IsComplete};
ghost use Rattle.can_code.specs.Front.{FrontParts, first_front, heard_levels, next_place};
ghost use Rattle.can_code.specs.CodeFaults.{IsCodeFault};
ghost use Rattle.can_code.specs.Decoder.{DecoderParts, HasHeard};

/// Levels that do not begin with a frame have at most one fault.
pub fn one_code_fault()
    ensures { (l : List Bit) (f g : Fault) → IsCodeFault l f → IsCodeFault l g → f ≡ g }
{}

/// A front takes the levels of a stuffed part after the start of frame, and ends exactly with it.
/// Then it has the unstuffed levels of this part. No other levels end a front.
pub fn stuffed_parts_are_heard()
    ensures exists { (u b : List Bit)
        → IsComplete u → Stuffs u (Dominant ∷ b)
        → (f : FrontParts) × (heard_levels first_front b ≡ Some f) × (f.unstuffed ≡ u) × (next_place f ≡ CrcDelimiter) }
    ensures only { (b : List Bit) (f : FrontParts)
        → heard_levels first_front b ≡ Some f → next_place f ≡ CrcDelimiter
        → IsComplete f.unstuffed × Stuffs f.unstuffed (Dominant ∷ b) }
{}

/// If the levels end before a decoder's frame does, the fault is that they are too short.
pub fn unfinished_frames_are_short()
    ensures { (d : DecoderParts) (l : List Bit) → HasHeard d l → IsCodeFault l (record { kind = Short; place = length l }) }
{}
