ghost use Rattle.std.specs.Prelude.{◌≡◌};

use std::marker::Model;

/// A number of 128 bits as two words. It is aligned to 8 bytes, a `u128` to 16, so types that
/// contain it stay small.
#[derive(Clone, Copy, Debug)]
pub(crate) struct TwoWords {
    high: u64,
    low: u64,
}

impl Model for TwoWords {
    ghost use Rattle.std.specs.Prelude.{ℕ, ◌+◌, ◌*◌, ◌/◌, ◌%◌, ◌^◌, ◌<◌};
    ghost use Rattle.std.proofs.Common.{ap, ◌∙◌};
    ghost use Rattle.std.proofs.lemmas.Nat.{mod_low, shr_high};

    ghost Value = { ℕ };

    ghost view = { λ a. a.high * 2 ^ 64 + a.low };

    ghost invariant = { λ a. a.low < 2 ^ 64 };

    ghost inverse = { λ n. record { high = n / 2 ^ 64; low = n % 2 ^ 64 } };

    ghost inverse_ok = { λ a small.
        ap (λ h. record { high = h; low = (a.high * 2 ^ 64 + a.low) % 2 ^ 64 }) (shr_high a.high 64 a.low small)
        ∙ ap (λ l. record { high = a.high; low = l }) (mod_low a.high 64 a.low small) };
}

impl TwoWords {
    #[inline]
    pub(crate) fn new(number: u128) -> TwoWords
        ensures { result ≡ number }
    {
        TwoWords {
            high: (number >> 64) as u64,
            low: (number % (1 << 64)) as u64,
        }
    }

    #[inline]
    pub(crate) fn number(&self) -> u128
        ensures { result ≡ self.now }
    {
        (u128::from(self.high) << 64) + u128::from(self.low)
    }
}
