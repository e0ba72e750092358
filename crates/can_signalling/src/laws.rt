//! Laws: functions with an empty body, whose contracts are the laws.
ghost use Rattle.std.specs.Prelude.{ℕ, ◌≡◌, ◌+◌, ◌<◌, ◌≤◌, ◌⊎◌, ◌++◌, true, false, length, List, Option, Some, None};
ghost use Rattle.can_frame.specs.declared.level.Level.{Level as Bit};
ghost use Rattle.can_frame.specs.declared.level.Level.TheVariants.{Dominant, Recessive};
ghost use Rattle.can_frame.specs.Levels.{opposite};
ghost use Rattle.can_frame.specs.Parts.{Parts, IsFrame};
ghost use Rattle.can_wire.specs.Wire.{stuffed_part, wire};
ghost use Rattle.can_wire.specs.Heard.{HeardParts, Spells};
ghost use Rattle.can_wire.specs.Layout.{level_at};
ghost use Rattle.can_code.specs.Front.{FrontParts};
ghost use Rattle.can_terms.specs.declared.event.Event.TheVariants.{Error};
ghost use Rattle.can_terms.specs.declared.event.ErrorKind.TheVariants.{Ack, Bit as BitError};
ghost use Rattle.can_mac.specs.declared.phase.Phase.TheVariants.{StuffedPart, AckSlot};
ghost use Rattle.can_mac.specs.declared.phase.Reading.{Reading};
ghost use Rattle.can_mac.specs.State.{MacState, idle};
ghost use Rattle.can_mac.specs.Moves.{in_arbitration};
ghost use Rattle.can_mac.specs.Machine.{mac_drives, mac_step};
ghost use Rattle.can_mac.specs.Frames.{driven_at, StartsWith, with_intermission, behind_part};
ghost use Rattle.can_detection.specs.WrongBit.{inverted_at, crc_delimiter};
ghost use Rattle.can_signalling.specs.Signalling.{IsTransmitter, IsFixedForm, IsOwnBit, SignalsFirst, own_bit_error, sender_error, fixed_form_error, flagging, over, sampled, IsReady, IsSignalledIn, IsQuietBefore, BreaksEnd};

/// An error active transmitter that samples one of its own bits inverted reports an error in this bit time. An active
/// error flag starts with the next one.
///
/// - `stuffed_part`: a bit after arbitration, or any dominant bit. An inverted stuff bit is a stuff error, any other a
///   bit error. TEC rises by 8, here and in the next two clauses.
/// - `ack_slot`: a recessive ACK slot is an acknowledgement error. The transmitter itself drives recessive there.
/// - `fixed_form`: a dominant CRC delimiter, ACK delimiter or bit of the end of frame, also the last, is a bit error.
/// - `frame`: a controller sends the frame f, and samples only level o of it inverted. It reports no event before.
/// - `flag`: the first bit of the error flag.
pub fn a_transmitter_signals_each_wrong_bit()
    ensures stuffed_part { (f : Parts) (front : FrontParts) (m : MacState) (waiting : Option Parts)
        → IsTransmitter f m → m.phase ≡ StuffedPart front
        → (in_arbitration f front.unstuffed ≡ false) ⊎ (mac_drives m waiting ≡ Dominant)
        → mac_step m waiting (opposite (mac_drives m waiting)) ≡ (flagging m, Some (Error (own_bit_error front))) }
    ensures ack_slot { (f : Parts) (r : Reading) (m : MacState) (waiting : Option Parts)
        → IsTransmitter f m → m.phase ≡ AckSlot r
        → mac_step m waiting Recessive ≡ (flagging m, Some (Error Ack)) }
    ensures fixed_form { (f : Parts) (m : MacState) (waiting : Option Parts)
        → IsTransmitter f m → IsFixedForm m.phase
        → mac_step m waiting (opposite (mac_drives m waiting)) ≡ (flagging m, Some (Error BitError)) }
    ensures frame { (f : Parts) (m : MacState) (waits : ℕ → Option Parts) (o : ℕ)
        → StartsWith f m (waits 0) → waits 0 ≡ Some f → 0 < o → o < length (wire f) → IsOwnBit f o
        → SignalsFirst m waits (inverted_at o (with_intermission f)) o (sender_error f o) }
    ensures flag { (m : MacState) (waiting : Option Parts) → mac_drives (flagging m) waiting ≡ Dominant }
{}

/// An error active receiver of an acknowledged frame with one inverted level signals it by the sixth bit of the end of
/// frame.
///
/// - `signals`: the level is in the stuffed part, after the SOF. In some bit time the receiver reports a stuff, form or
///   CRC error, and an active error flag starts with the next one. Or it drives its ACK slot dominant in one of the
///   first five bits of the end of frame, which the others leave recessive. Before, it reports no event, so it accepts
///   no frame. It drives dominant at most in its ACK slot.
/// - `fixed_form`: the level is after the stuffed part, but not the last. The receiver reports the error in this bit
///   time: a form error, or in the ACK slot, which it drives itself, a bit error.
/// - `latest`, `breaks_end`: a frame with which the error comes as late as the sixth bit, and one with which the ACK slot
///   is driven in the end of frame. Both are frames as they are sent.
/// - `samples`: the levels that the receiver samples in `signals`. In each bit time this is the level of the others, or
///   dominant if the receiver drives dominant.
pub fn a_receiver_signals_one_wrong_level()
    ensures signals { (h : HeardParts) (w : List Bit) (p : ℕ) (rest : List Bit) (m : MacState) (waits : ℕ → Option Parts)
        → Spells h w → h.acked ≡ true → 0 < p → p < crc_delimiter w
        → IsReady m waits
        → (t : ℕ) × (t ≤ crc_delimiter w + 8) × IsSignalledIn m waits (inverted_at p w ++ rest) (crc_delimiter w) t }
    ensures fixed_form { (f : Parts) (m : MacState) (waits : ℕ → Option Parts) (o : ℕ)
        → IsFrame f → IsReady m waits → length (stuffed_part f) ≤ o → o < length (stuffed_part f) + 9
        → SignalsFirst m waits (inverted_at o (with_intermission f)) o (fixed_form_error (behind_part f o)) }
    ensures latest { (f : Parts) × (p : ℕ) × IsFrame f × (0 < p) × (p < crc_delimiter (wire f))
        × IsSignalledIn idle (λ t. None) (inverted_at p (wire f)) (crc_delimiter (wire f)) (crc_delimiter (wire f) + 8) }
    ensures breaks_end { (f : Parts) × (p t slot : ℕ) × IsFrame f × (0 < p) × (p < crc_delimiter (wire f))
        × IsQuietBefore idle (λ t. None) (inverted_at p (wire f)) slot t
        × BreaksEnd idle (λ t. None) (inverted_at p (wire f)) (crc_delimiter (wire f)) t }
    ensures samples { (m : MacState) (waits : ℕ → Option Parts) (others : List Bit) (t : ℕ)
        → t < length others
        → level_at (sampled m waits others) t ≡ over (level_at others t) (driven_at m waits (sampled m waits others) t) }
{}
