//! The error counters. (Bosch CAN 2.0 part B, section 8)
ghost use Rattle.std.specs.Prelude.{◌≡◌, ◌<◌, ℕ, Bool, nat_le, ◌||◌, length};
ghost use Rattle.can_fault.specs.Counters.{rec_after_reception};
ghost use Rattle.can_gates.specs.Circuit.{value, Makes};
ghost use Rattle.can_gates.specs.Words.{number};
ghost use Rattle.can_gates_mac.specs.Nibbles.{nibble};
ghost use Rattle.can_gates_mac.specs.Counting.{tec_after, rec_after};

use crate::nibble::Nibble;
use can_gates::{Circuit, FALSE, Literal, TRUE, constant};

/// REC after a good reception of a frame, if it was above 127.
const REC_BEHIND_RECEPTION: u64 = 127;

/// TEC after this cause: 8 more if a transmitter had an error, one less if it has sent a frame.
pub(crate) fn tec_behind(circuit: &mut Circuit, cause: Nibble, tec: &[Literal; 9]) -> [Literal; 9]
    ensures places { length result ≡ 9 }
    ensures tec { Makes circuit.old circuit.new (λ v. nibble v cause < 6 → number v tec.now < 256 → number v result ≡ tec_after (nibble v cause) (number v tec.now)) }
{
    let rises = circuit.and(cause.ones, cause.twos);
    let falls = circuit.and(cause.fours, cause.ones.opposite());
    let up = circuit.raised(tec, &[FALSE, FALSE, FALSE, rises]);
    circuit.lowered(&up, &[falls])
}

/// REC after this cause: 1 or 8 more if a receiver had an error; after a reception that of `rec_received`.
pub(crate) fn rec_behind(circuit: &mut Circuit, cause: Nibble, rec: &[Literal; 8]) -> [Literal; 8]
    ensures places { length result ≡ 8 }
    ensures rec { Makes circuit.old circuit.new (λ v. nibble v cause < 6 → number v result ≡ rec_after (nibble v cause) (number v rec.now)) }
{
    let by_8 = circuit.and(cause.twos, cause.ones.opposite());
    let odd = circuit.and(cause.ones, cause.twos.opposite());
    let by_1 = circuit.and(odd, cause.fours.opposite());
    let good = circuit.and(cause.fours, cause.ones);
    let up = circuit.raised(rec, &[by_1, FALSE, FALSE, by_8]);
    let received = rec_received(circuit, rec);
    circuit.choose(good, &received, &up)
}

/// REC after a good reception.
fn rec_received(circuit: &mut Circuit, rec: &[Literal; 8]) -> [Literal; 8]
    ensures { Makes circuit.old circuit.new (λ v. number v result ≡ rec_after_reception (number v rec.now)) }
{
    let down = circuit.lowered(rec, &[TRUE]);
    let most = constant(REC_BEHIND_RECEPTION);
    circuit.choose(rec[7], &most, &down)
}

/// Returns whether TEC or REC is at least 128.
pub fn is_passive(circuit: &mut Circuit, tec: &[Literal; 9], rec: &[Literal; 8]) -> Literal
    ensures { Makes circuit.old circuit.new (λ v. value v result ≡ (nat_le 128 (number v tec.now) || nat_le 128 (number v rec.now))) }
{
    let high = circuit.or(tec[7], tec[8]);
    circuit.or(high, rec[7])
}
