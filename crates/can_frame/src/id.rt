ghost use Rattle.std.specs.Prelude.{◌≡◌, ◌≤◌, ◌^◌, ◌↔◌, IsNone, IfSome, false, true};
ghost use Rattle.can_frame.specs.Ident.{IsIdent};

use std::marker::Model;

/// How many standard identifiers there are.
const STANDARD_COUNT: u16 = 0x800;

/// How many extended identifiers there are.
const EXTENDED_COUNT: u32 = 0x2000_0000;

/// An identifier of 11 bits (standard) or 29 bits (extended) (Bosch CAN 2.0 part B, section 3.2.1).
/// All 2^11 and 2^29 numbers are identifiers.
#[derive(Clone, Copy, Debug, PartialEq, Eq)]
pub struct Id {
    raw: u32,
    extended: bool,
}

impl Model for Id {
    ghost use Rattle.can_frame.specs.Ident.{Ident, IsIdent};

    ghost Value = { Ident };

    ghost view = { λ a. record { raw = a.raw; extended = a.extended } };

    ghost invariant = { λ a. IsIdent (record { raw = a.raw; extended = a.extended }) };

    ghost inverse = { λ v. record { raw = v.raw; extended = v.extended } };
}

impl Id {
    /// Returns the standard identifier with this number, or `None` from 2^11 on.
    pub fn standard(raw: u16) -> Option<Id>
        ensures none { IsNone result ↔ (2 ^ 11 ≤ raw) }
        ensures some { IfSome result (λ id. id ≡ record { raw = raw; extended = false }) }
    {
        if raw < STANDARD_COUNT {
            Some(Id {
                raw: u32::from(raw),
                extended: false,
            })
        } else {
            None
        }
    }

    /// Returns the extended identifier with this number, or `None` from 2^29 on.
    pub fn extended(raw: u32) -> Option<Id>
        ensures none { IsNone result ↔ (2 ^ 29 ≤ raw) }
        ensures some { IfSome result (λ id. id ≡ record { raw = raw; extended = true }) }
    {
        if raw < EXTENDED_COUNT {
            Some(Id {
                raw,
                extended: true,
            })
        } else {
            None
        }
    }

    /// The number.
    pub fn raw(&self) -> u32
        ensures value { result ≡ self.now.raw }
        ensures range { IsIdent self.now }
    {
        self.raw
    }

    /// Whether it has 29 bits.
    pub fn is_extended(&self) -> bool
        ensures { result ≡ self.now.extended }
    {
        self.extended
    }
}
