ghost use Rattle.std.specs.Prelude.{◌≡◌, ◌/◌, ◌<◌, ◌≤◌, ◌^◌, ◌∷◌, ◌++◌, [], List, length, replicate};
ghost use Rattle.can_frame.specs.declared.level.Level.{Level as Bit};
ghost use Rattle.can_frame.specs.declared.level.Level.TheVariants.{Dominant};
ghost use Rattle.can_frame.specs.Levels.{bits_of, number_from};
ghost use Rattle.can_wire.specs.Crc.{xor, reduced, IsCrc};

use crate::crc_table::CRC_OF_PLACES;
use can_frame::Level;
use std::marker::Model;

/// The generator polynomial without its leading term.
const LOWER_TERMS: u16 = 0x4599;

/// The fifteen bits of the shift register.
const REGISTER_BITS: u16 = 0x7fff;

/// The maximum number of levels that one step takes.
const OCTET: usize = 8;

/// The CRC sequence of levels that arrive one by one: the shift register of Bosch CAN 2.0 part B,
/// section 3.2.1.
#[derive(Clone, Copy, Debug)]
pub struct CrcRun {
    register: u16,
}

impl Model for CrcRun {
    ghost use Rattle.std.specs.Prelude.{ℕ, ◌<◌, ◌^◌};

    ghost Value = { ℕ };

    ghost view = { λ a. a.register };

    ghost invariant = { λ a. a.register < 2 ^ 15 };

    ghost inverse = { λ n. record { register = n } };
}

impl CrcRun {
    /// Returns the CRC sequence of no levels.
    #[inline]
    pub fn new() -> CrcRun
        ensures range { result < 2 ^ 15 }
        ensures check { IsCrc [] (bits_of 15 result) }
    {
        CrcRun { register: 0 }
    }

    /// Takes one more level: the CRC sequence of any levels becomes that of these levels followed
    /// by `level`.
    #[inline]
    pub fn push(&mut self, level: Level)
        ensures range { self.new < 2 ^ 15 }
        ensures check { (levels : List Bit) → IsCrc levels (bits_of 15 self.old) → IsCrc (levels ++ level ∷ []) (bits_of 15 self.new) }
    {
        self.register = shift_in(self.register, level);
    }

    /// Takes eight more levels.
    pub(crate) fn push_octet(&mut self, octet: &[Level; 8])
        ensures range { self.new < 2 ^ 15 }
        ensures check { (levels : List Bit) → IsCrc levels (bits_of 15 self.old) → IsCrc (levels ++ octet.now) (bits_of 15 self.new) }
    {
        self.register = shift_in_octet(self.register, octet);
    }

    /// Takes the levels of the `count` lowest bits of a number, the highest first.
    pub(crate) fn append(&mut self, number: u64, count: usize)
        requires { count ≤ 64 }
        ensures range { self.new < 2 ^ 15 }
        ensures check { (levels : List Bit) → IsCrc levels (bits_of 15 self.old) → IsCrc (levels ++ bits_of count number) (bits_of 15 self.new) }
    {
        self.register = shift_in_bits(self.register, number, count);
    }

    /// The CRC sequence, as a number of fifteen bits. Bit 14 is sent first.
    #[inline]
    pub fn value(&self) -> u16
        ensures range { result < 2 ^ 15 }
        ensures value { result ≡ self.now }
    {
        self.register
    }
}

/// The register after eight more levels.
fn shift_in_octet(register: u16, levels: &[Level; 8]) -> u16
    requires { register < 2 ^ 15 }
    ensures range { result < 2 ^ 15 }
    ensures step { bits_of 15 result ≡ reduced (length levels.now) (xor (bits_of 15 register) (levels.now ++ replicate 15 Dominant)) }
{
    shift_in_few(register, number_of(levels), OCTET)
}

/// The register after the levels of the lowest bits of a number.
fn shift_in_bits(register: u16, number: u64, count: usize) -> u16
    requires register { register < 2 ^ 15 }
    requires width { count ≤ 64 }
    ensures range { result < 2 ^ 15 }
    ensures step { let levels = bits_of count number in bits_of 15 result ≡ reduced (length levels) (xor (bits_of 15 register) (levels ++ replicate 15 Dominant)) }
{
    let mut shifted = register;
    let mut left = count;
    while left > 0 {
        let few = left.min(OCTET);
        left -= few;
        let levels = (number >> left) % (1 << few);
        shifted = shift_in_few(shifted, levels as u16, few);
    }
    shifted
}

/// The register after the levels of a number of `count` bits, at most eight.
#[inline]
fn shift_in_few(register: u16, number: u16, count: usize) -> u16
    requires register { register < 2 ^ 15 }
    requires few { count ≤ OCTET }
    requires number { number < 2 ^ count }
    ensures range { result < 2 ^ 15 }
    ensures step { let levels = bits_of count number in bits_of 15 result ≡ reduced (length levels) (xor (bits_of 15 register) (levels ++ replicate 15 Dominant)) }
{
    let place = (register >> (15 - count)) ^ number;
    ((register << count) & REGISTER_BITS) ^ CRC_OF_PLACES[usize::from(place)]
}

/// The number whose bits the levels are, the highest first.
fn number_of(levels: &[Level; 8]) -> u16
    ensures range { result < 2 ^ 8 }
    ensures value { result ≡ number_from 0 levels.now }
{
    let mut number = 0;
    for level in levels {
        number = 2 * number + *level as u16;
    }
    number
}

/// The register after one more level.
#[inline]
fn shift_in(register: u16, level: Level) -> u16
    requires { register < 2 ^ 15 }
    ensures range { result < 2 ^ 15 }
    ensures step { bits_of 15 result ≡ reduced 1 (xor (bits_of 15 register) (level ∷ replicate 15 Dominant)) }
{
    let shifted = (register << 1) & REGISTER_BITS;
    let fed = feedback(register, level);
    shifted ^ (fed * LOWER_TERMS)
}

/// The feedback bit for a level: the sum of the register's highest bit and the level.
#[inline]
fn feedback(register: u16, level: Level) -> u16
    requires { register < 2 ^ 15 }
    ensures bit { result ≤ 1 }
    ensures sum { bits_of 1 result ≡ xor (bits_of 1 (register / 2 ^ 14)) (level ∷ []) }
{
    (register >> 14) ^ u16::from(level.is_recessive())
}
