//! Laws: functions with an empty body, whose contracts are the laws.
ghost use Rattle.std.specs.Prelude.{◌≡◌, ◌≢◌, ◌≤◌, ◌<◌, ◌+◌, ◌++◌, ◌⊎◌, ℕ, List, length, take, not, true, false};
ghost use Rattle.can_frame.specs.declared.level.Level.{Level as Bit};
ghost use Rattle.can_frame.specs.Levels.{opposite};
ghost use Rattle.can_wire.specs.Crc.{Multiple};
ghost use Rattle.can_wire.specs.Heard.{HeardParts, Spells, IsSound};
ghost use Rattle.can_code.specs.declared.fault.CodeFault.{CodeFault as Fault};
ghost use Rattle.can_code.specs.declared.fault.CodeFaultKind.TheVariants.{Form};
ghost use Rattle.can_code.specs.CodeFaults.{IsCodeFault};
ghost use Rattle.can_detection.specs.WrongBit.{inverted_at, crc_delimiter, EndsLate};

/// The CRC detects each burst of at most fifteen bits.
///
/// If the generator divides two lists of the same length that differ only within fifteen neighbouring
/// bits, they are equal.
pub fn bursts_are_noticed()
    ensures { (a x y b : List Bit) → length x ≡ length y → length x ≤ 15
        → Multiple (a ++ (x ++ b)) → Multiple (a ++ (y ++ b)) → x ≡ y }
{}

/// An inverted level after the stuffed part is a form error at once, with two exceptions.
///
/// If the ACK slot or the last level of the end of frame is inverted, the levels encode the same frame,
/// with this level as received.
pub fn wrong_fixed_levels_are_noticed()
    ensures fault { (h : HeardParts) (w rest : List Bit) (k : ℕ) → Spells h w → k < 9 → k ≢ 1
        → IsCodeFault (inverted_at (crc_delimiter w + k) w ++ rest) (record { kind = Form; place = crc_delimiter w + k }) }
    ensures ack_slot { (h : HeardParts) (w : List Bit) → Spells h w
        → Spells (record h { acked = not h.acked }) (inverted_at (crc_delimiter w + 1) w) }
    ensures last { (h : HeardParts) (w : List Bit) → Spells h w
        → Spells (record h { last = opposite h.last }) (inverted_at (crc_delimiter w + 9) w) }
{}

/// No receiver accepts an acknowledged frame if one level of its stuffed part is inverted.
///
/// - `accepted`: no prefix of the levels encodes an acknowledged frame, or a frame that is not longer.
/// - `sound`, `place`: a receiver that finds no fault by the fifth bit of the end of frame reads a
///   longer stuffed part. The ACK slot after it is then a recessive level of the end of frame,
///   although this receiver would itself drive it dominant.
/// - `exception`: this happens. There is a frame and a place where a receiver finds no fault at all.
pub fn one_wrong_level_is_noticed()
    ensures accepted { (h g : HeardParts) (w v : List Bit) (p : ℕ) (rest more : List Bit)
        → Spells h w → h.acked ≡ true → 0 < p → p < crc_delimiter w
        → Spells g v → v ++ more ≡ inverted_at p w ++ rest
        → (g.acked ≡ false) × (length w < length v) }
    ensures sound { (h : HeardParts) (w : List Bit) (p : ℕ) (rest : List Bit)
        → Spells h w → h.acked ≡ true → 0 < p → p < crc_delimiter w
        → IsSound (take (crc_delimiter w + 8) (inverted_at p w ++ rest))
        → EndsLate (crc_delimiter w) (inverted_at p w ++ rest) }
    ensures place { (h : HeardParts) (w : List Bit) (p : ℕ) (rest : List Bit) (fault : Fault)
        → Spells h w → h.acked ≡ true → 0 < p → p < crc_delimiter w
        → IsCodeFault (inverted_at p w ++ rest) fault
        → (fault.place ≤ crc_delimiter w + 7) ⊎ EndsLate (crc_delimiter w) (inverted_at p w ++ rest) }
    ensures exception { (h : HeardParts) × (g : HeardParts) × (w : List Bit) × (p : ℕ) × (rest : List Bit)
        × Spells h w × (h.acked ≡ true) × (0 < p) × (p < crc_delimiter w)
        × Spells g (inverted_at p w ++ rest) }
{}
