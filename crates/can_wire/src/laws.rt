ghost use Rattle.std.specs.Prelude.{◌≡◌, ◌++◌, List};
ghost use Rattle.can_frame.specs.declared.level.Level.{Level as Bit};
ghost use Rattle.can_frame.specs.declared.level.Level.TheVariants.{Dominant, Recessive};
ghost use Rattle.can_frame.specs.Parts.{Parts};
ghost use Rattle.can_wire.specs.Crc.{IsCrc, crc_of};
ghost use Rattle.can_wire.specs.Stuffing.{Stuffs, stuffed};
ghost use Rattle.can_wire.specs.Wire.{head, IsSpelling, wire};
ghost use Rattle.can_wire.specs.Heard.{HeardParts, IsHeard, sent, Spells, spelling};

/// Each list of levels has exactly one CRC sequence.
pub fn one_check_sequence()
    ensures exists { (b : List Bit) → IsCrc b (crc_of b) }
    ensures only { (b c : List Bit) → IsCrc b c → c ≡ crc_of b }
{}

/// Each list of levels has exactly one list with its stuff bits inserted.
pub fn one_stuffing()
    ensures exists { (a : List Bit) → Stuffs a (stuffed a) }
    ensures only { (a b : List Bit) → Stuffs a b → b ≡ stuffed a }
{}

/// Each frame has exactly one encoding on the bus.
pub fn one_wire()
    ensures exists { (f : Parts) → IsSpelling (head f) Dominant Recessive (wire f) }
    ensures only { (f : Parts) (w : List Bit) → IsSpelling (head f) Dominant Recessive w → w ≡ wire f }
{}

/// A frame as received has exactly one encoding. If all levels are as sent and the frame is
/// acknowledged, it is the encoding of the frame.
pub fn one_spelling()
    ensures exists { (h : HeardParts) → IsHeard h → Spells h (spelling h) }
    ensures only { (h : HeardParts) (w : List Bit) → Spells h w → w ≡ spelling h }
    ensures sent { (f : Parts) → spelling (sent f) ≡ wire f }
{}

/// A list of levels encodes at most one frame as received.
pub fn one_heard()
    ensures { (h g : HeardParts) (w : List Bit) → Spells h w → Spells g w → h ≡ g }
{}

/// No encoding is a proper prefix of another. If two encodings begin the same list of levels, they
/// are equal.
pub fn no_spelling_begins_another()
    ensures { (h g : HeardParts) (v w x y : List Bit) → Spells h v → Spells g w → v ++ x ≡ w ++ y → (h ≡ g) × (v ≡ w) }
{}
