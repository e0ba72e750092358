ghost use Rattle.std.specs.Prelude.{◌≡◌, ◌<◌, ◌^◌, ◌/◌, ◌↔◌, IsTrue, [], ◌∷◌, ◌++◌};
ghost use Rattle.std.proofs.Common.{refl, rules};
ghost use Rattle.std.specs.Cmp.Rules.{comparing};
ghost use Rattle.std.specs.Ordering.{as_partial_cmp, eq_by_cmp};
ghost use Rattle.can_frame.specs.Arbitration.{arbitration_field, standard_field, extended_field, Before, field_cmp};

use crate::frame::Frame;
use std::cmp::Ordering;
use std::marker::Model;

/// The arbitration field of a frame. Of frames that start together, the one with the least key wins
/// arbitration: at the first bit in which two keys differ, the lesser one has a dominant bit.
/// (Bosch CAN 2.0 part B, sections 2 and 3.2.1)
#[derive(Clone, Copy, Debug)]
pub struct Key {
    // The field's first bit is the highest. The 19 low bits, which a standard field lacks, are
    // zero.
    bits: u32,
}

impl Model for Key {
    ghost use Rattle.std.specs.Prelude.{List};
    ghost use Rattle.std.proofs.Common.{ap};
    ghost use Rattle.can_frame.specs.declared.level.Level.{Level};
    ghost use Rattle.can_frame.specs.KeyBits.{kept_field, IsKept, bits_to_keep};
    ghost use Rattle.can_frame.specs.Kept.{kept_again};

    ghost Value = { List Level };

    ghost view = { λ a. kept_field a.bits };

    ghost invariant = { λ a. IsKept a.bits };

    ghost inverse = { λ field. record { bits = bits_to_keep field } };

    ghost inverse_ok = { λ a kept. ap (λ bits. record { bits = bits }) (kept_again a.bits kept) };
}

// The two recessive bits after the base identifier of an extended frame.
const SRR_AND_IDE: u32 = 0b11 << 19;

impl Key {
    // Identifier, RTR, IDE.
    fn standard(raw: u32, remote: bool) -> Key
        requires { raw < 2 ^ 11 }
        ensures { result ≡ standard_field raw remote }
    {
        Key {
            bits: raw << 21 | u32::from(remote) << 20,
        }
    }

    // The identifier's eleven highest bits, SRR, IDE, its other bits, RTR.
    fn extended(raw: u32, remote: bool) -> Key
        requires { raw < 2 ^ 29 }
        ensures { result ≡ extended_field raw remote }
    {
        let upper = raw >> 18;
        let lower = raw & 0x3_ffff;
        Key {
            bits: upper << 21 | SRR_AND_IDE | lower << 1 | u32::from(remote),
        }
    }
}

impl Frame {
    /// The arbitration field: of a standard frame the identifier, RTR and IDE bit; of an extended
    /// frame the eleven highest bits of the identifier, SRR, IDE, its other bits and RTR.
    #[tactic(auto, unfolding(crate::specs::Arbitration::arbitration_field))]
    pub fn key(&self) -> Key
        ensures { result ≡ arbitration_field self.now }
    {
        let id = self.id();
        if id.is_extended() {
            Key::extended(id.raw(), self.is_remote())
        } else {
            Key::standard(id.raw(), self.is_remote())
        }
    }
}

impl PartialEq for Key {
    ghost eq = { eq_by_cmp field_cmp };

    ghost laws = { Prim.search (comparing, rules) depth 9 };

    fn eq(&self, other: &Key) -> bool
        ensures test { result ≡ eq_by_cmp field_cmp self.now other.now }
        ensures equal { IsTrue result ↔ (self.now ≡ other.now) }
    {
        self.bits == other.bits
    }
}

impl Eq for Key {
    ghost laws = { Prim.search (comparing, rules) depth 9 };
}

impl PartialOrd for Key {
    ghost partial_cmp = { as_partial_cmp field_cmp };

    ghost laws = { Prim.search (comparing, rules) depth 9 };

    fn partial_cmp(&self, other: &Key) -> Option<Ordering> {
        Some(self.cmp(other))
    }
}

impl Ord for Key {
    ghost cmp = { field_cmp };

    ghost total = { Prim.search (comparing, rules) depth 9 };

    ghost matches_partial_cmp = { λ x y. refl };

    ghost matches_eq = { λ x y. refl };

    fn cmp(&self, other: &Key) -> Ordering
        ensures value { result ≡ field_cmp self.now other.now }
        ensures less { (result ≡ Ordering.Less) ↔ Before self.now other.now }
        ensures equal { (result ≡ Ordering.Equal) ↔ (self.now ≡ other.now) }
        ensures greater { (result ≡ Ordering.Greater) ↔ Before other.now self.now }
    {
        self.bits.cmp(&other.bits)
    }
}
