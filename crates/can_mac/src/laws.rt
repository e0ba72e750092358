ghost use Rattle.std.specs.Prelude.{ℕ, ◌≡◌, ◌≢◌, ◌+◌, ◌<◌, ◌≤◌, ◌⊎◌, ◌↔◌, true, List, length, Option, Some, None};
ghost use Rattle.can_frame.specs.declared.level.Level.{Level as Bit};
ghost use Rattle.can_frame.specs.declared.level.Level.TheVariants.{Dominant, Recessive};
ghost use Rattle.can_frame.specs.Arbitration.{arbitration_field, Before};
ghost use Rattle.can_frame.specs.Parts.{IsFrame, Parts};
ghost use Rattle.can_wire.specs.Crc.{Multiple};
ghost use Rattle.can_wire.specs.Layout.{frame_len, level_at, IsPart};
ghost use Rattle.can_terms.specs.declared.event.Event.TheVariants.{Lost};
ghost use Rattle.can_mac.specs.declared.phase.Phase.TheVariants.{CrcDelimiter, Idle};
ghost use Rattle.can_mac.specs.declared.phase.Role.TheVariants.{Receiver, Sender};
ghost use Rattle.can_mac.specs.Frames.{AreHeard, driven_at, frame_drives, frame_event, frame_state, with_intermission, PartsAt, phase_at, role_at, slot_place, StartsWith, state_after, told_at};
ghost use Rattle.can_mac.specs.State.{idle, IsMac, IsFrameOrNone, joining, MacState};
ghost use Rattle.can_mac.specs.Moves.{agrees, reading_of};
ghost use Rattle.can_mac.specs.Machine.{holding, mac_step};

/// The invariant of controllers holds of an idle and of a joining one, and is kept. Each bit time keeps it, and each
/// request for up to two overload frames.
pub fn access_is_kept()
    ensures idle { IsMac idle }
    ensures joining { IsMac joining }
    ensures step { (m : MacState) (waiting : Option Parts) (level : Bit)
        → IsMac m → IsFrameOrNone waiting
        → IsMac (mac_step m waiting level).0 }
    ensures wish { (m : MacState) (n : ℕ) → IsMac m → n ≤ 2 → IsMac (holding n m) }
{}

/// A frame and its intermission lead all error active controllers that are idle at its start through the same phases.
/// What each reports depends only on the frame and its own pending frame. A controller may have no pending frame, be
/// the frame's transmitter, or have a pending frame of lower priority. Frames that are pending later have no
/// influence. After the end of frame this holds if no overload frame is requested.
pub fn a_frame_leads_all_to_one_phase()
    ensures phase { (f : Parts) (m : MacState) (waits : ℕ → Option Parts) (o : ℕ)
        → StartsWith f m (waits 0) → AreHeard f m o
        → (state_after m waits (with_intermission f) o).phase ≡ phase_at f o }
    ensures state { (f : Parts) (m : MacState) (waits : ℕ → Option Parts) (o : ℕ)
        → StartsWith f m (waits 0) → AreHeard f m o
        → state_after m waits (with_intermission f) o ≡ frame_state f (waits 0) m.overloads.pending m.counters o }
    ensures event { (f : Parts) (m : MacState) (waits : ℕ → Option Parts) (o : ℕ)
        → StartsWith f m (waits 0) → AreHeard f m (o + 1)
        → told_at m waits (with_intermission f) o ≡ frame_event f (waits 0) o }
    ensures receiver { (f : Parts) (o : ℕ) → role_at f None o ≡ Receiver }
    ensures sender { (f : Parts) (o : ℕ) → role_at f (Some f) o ≡ Sender f }
{}

/// The transmitter of a frame drives the levels of the bus, except in the ACK slot, where it drives recessive. A
/// receiver drives the ACK slot alone. So each controller drives the level of the bus, or recessive.
pub fn a_sender_drives_its_wire()
    ensures drives { (f : Parts) (m : MacState) (waits : ℕ → Option Parts) (o : ℕ)
        → StartsWith f m (waits 0) → AreHeard f m (o + 1)
        → driven_at m waits (with_intermission f) o ≡ frame_drives f (waits 0) o }
    ensures sender { (f : Parts) (m : MacState) (waits : ℕ → Option Parts) (o : ℕ)
        → StartsWith f m (waits 0) → AreHeard f m (o + 1) → waits 0 ≡ Some f → o ≢ slot_place f
        → driven_at m waits (with_intermission f) o ≡ level_at (with_intermission f) o }
    ensures sender_slot { (f : Parts) (m : MacState) (waits : ℕ → Option Parts) (o : ℕ)
        → StartsWith f m (waits 0) → AreHeard f m (o + 1) → waits 0 ≡ Some f → o ≡ slot_place f
        → driven_at m waits (with_intermission f) o ≡ Recessive }
    ensures receiver { (f : Parts) (m : MacState) (waits : ℕ → Option Parts) (o : ℕ)
        → StartsWith f m (waits 0) → AreHeard f m (o + 1) → waits 0 ≡ None → o ≢ slot_place f
        → driven_at m waits (with_intermission f) o ≡ Recessive }
    ensures receiver_slot { (f : Parts) (m : MacState) (waits : ℕ → Option Parts) (o : ℕ)
        → StartsWith f m (waits 0) → AreHeard f m (o + 1) → waits 0 ≡ None → o ≡ slot_place f
        → driven_at m waits (with_intermission f) o ≡ Dominant }
    ensures over { (f : Parts) (m : MacState) (waits : ℕ → Option Parts) (o : ℕ)
        → StartsWith f m (waits 0) → AreHeard f m (o + 1)
        → (driven_at m waits (with_intermission f) o ≡ Recessive)
        ⊎ (driven_at m waits (with_intermission f) o ≡ level_at (with_intermission f) o) }
{}

/// A controller whose pending frame has lower priority than the frame on the bus loses arbitration, and is a receiver
/// from then on. It drives the levels of its own frame up to and including the first that differs, which is in its
/// arbitration field. There it drives recessive, and reports `Lost`.
pub fn a_loser_goes_on_as_a_receiver()
    ensures parts { (f g : Parts)
        → IsFrame f → IsFrame g → Before (arbitration_field f) (arbitration_field g)
        → (place : ℕ) × PartsAt f g place }
    ensures sender { (f g : Parts) (m : MacState) (waits : ℕ → Option Parts) (place : ℕ) (o : ℕ)
        → StartsWith f m (waits 0) → waits 0 ≡ Some g → PartsAt f g place → 0 < o → o ≤ place
        → (state_after m waits (with_intermission f) o).role ≡ Sender g }
    ensures drives { (f g : Parts) (m : MacState) (waits : ℕ → Option Parts) (place : ℕ) (o : ℕ)
        → StartsWith f m (waits 0) → waits 0 ≡ Some g → PartsAt f g place → o ≤ place
        → driven_at m waits (with_intermission f) o ≡ level_at (with_intermission g) o }
    ensures lost { (f g : Parts) (m : MacState) (waits : ℕ → Option Parts) (place : ℕ)
        → StartsWith f m (waits 0) → waits 0 ≡ Some g → PartsAt f g place
        → told_at m waits (with_intermission f) place ≡ Some Lost }
    ensures receiver { (f g : Parts) (m : MacState) (waits : ℕ → Option Parts) (place : ℕ) (o : ℕ)
        → StartsWith f m (waits 0) → waits 0 ≡ Some g → PartsAt f g place → place < o → AreHeard f m o
        → (state_after m waits (with_intermission f) o).role ≡ Receiver }
{}

/// A complete CRC sequence agrees exactly when the generator divides the unstuffed levels. An idle controller without
/// a pending frame finds exactly this: after a complete stuffed part it is at the CRC delimiter, with what these
/// levels encode.
pub fn agreement_is_divisibility()
    ensures exactly { (u : List Bit) → length u ≡ frame_len u → agrees u ≡ true ↔ Multiple u }
    ensures heard { (u part : List Bit) (m : MacState) (waits : ℕ → Option Parts)
        → IsPart u part → m.phase ≡ Idle → waits 0 ≡ None
        → (state_after m waits part (length part)).phase ≡ CrcDelimiter (reading_of u) }
    ensures reading { (u : List Bit) → (reading_of u).agrees ≡ agrees u }
{}
