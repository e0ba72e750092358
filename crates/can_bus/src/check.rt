ghost use Rattle.std.specs.Prelude.{ℕ, Bool, ⊤, ◌≡◌, ◌↔◌, ◌⊎◌, ◌<◌, IsOk, IsTrue, IfErr, Some, length, slice_get};
ghost use Rattle.can_frame.specs.Parts.{IsFrame};
ghost use Rattle.can_terms.specs.Hits.{AreTaken, hit_names_port, is_above};
ghost use Rattle.can_terms.specs.Sound.{AreSound, FollowsLast};
ghost use Rattle.can_bus.specs.declared.offer.Offer.{Offer as Asked};
ghost use Rattle.can_bus.specs.Inputs.{IsFirstHitFault, IsFirstWrong};
ghost use Rattle.can_bus.specs.Offers.{AreOffered, IsFirstOfferFault, is_no_earlier, offer_names_port};

use crate::fault::BusFault;
use crate::offer::Offer;
use can_terms::Hit;

/// An item of a list that a call of a bus takes.
trait Input: Copy {
    /// Which item may follow which.
    ghost follows: { Self → Self → Bool };

    /// What is known of each item.
    ghost IsKnown: { Self → Type 0 };

    /// Whether the item names one of this many ports, or names none.
    ghost names: { ℕ → Self → Bool };

    /// Whether it may follow this item.
    fn may_follow(self, last: Self) -> bool
        ensures { result ≡ follows self last };

    /// Whether it names one of this many ports, or names none.
    fn names_port(self, ports: usize) -> bool
        ensures answer { result ≡ names ports self }
        ensures known { IsKnown self };
}

impl Input for Hit {
    ghost follows = { is_above };

    ghost IsKnown = { λ hit. ⊤ };

    ghost names = { hit_names_port };

    fn may_follow(self, last: Hit) -> bool {
        last < self
    }

    fn names_port(self, ports: usize) -> bool {
        match self {
            Hit::At(_) | Hit::In { .. } => true,
            Hit::View { node, .. } => node < ports,
        }
    }
}

impl Input for Offer {
    ghost follows = { is_no_earlier };

    ghost IsKnown = { λ offer. IsFrame offer.frame };

    ghost names = { offer_names_port };

    fn may_follow(self, last: Offer) -> bool {
        last.time <= self.time
    }

    fn names_port(self, ports: usize) -> bool {
        // reading the bytes of a frame shows the prover that it is within its limits
        let _bytes = self.frame.bytes();
        self.node < ports
    }
}

/// Whether the item at this place may follow the one before it.
fn follows_last<I: Input>(inputs: &[I], place: usize) -> bool
    requires { place < length inputs.now }
    ensures { (input : I) → slice_get inputs.now place ≡ Some input → IsTrue result ↔ FollowsLast I.follows inputs.now place input }
{
    place == 0 || inputs[place].may_follow(inputs[place - 1])
}

/// Checks the order of the items, and the ports that they name.
fn check<I: Input>(inputs: &[I], ports: usize) -> Result<(), BusFault>
    ensures taken { IsOk result ↔ AreSound I.follows I.names ports inputs.now }
    ensures fault { IfErr result (λ fault. IsFirstWrong I.follows I.names ports inputs.now fault) }
    ensures known { IsOk result → (n : ℕ) (input : I) → slice_get inputs.now n ≡ Some input → I.IsKnown input }
{
    for (place, input) in inputs.iter().enumerate() {
        if !follows_last(inputs, place) {
            return Err(BusFault::NotRising);
        }
        if !input.names_port(ports) {
            return Err(BusFault::NoSuchPort);
        }
    }
    Ok(())
}

/// Checks the offers of a call, and then its hits.
pub(crate) fn check_call(offers: &[Offer], hits: &[Hit], ports: usize) -> Result<(), BusFault>
    ensures taken { IsOk result ↔ (AreOffered ports offers.now × AreTaken ports hits.now) }
    ensures fault { IfErr result (λ fault. IsFirstOfferFault ports offers.now fault ⊎ (AreOffered ports offers.now × IsFirstHitFault ports hits.now fault)) }
    ensures known { IsOk result → (n : ℕ) (offer : Asked) → slice_get offers.now n ≡ Some offer → IsFrame offer.frame }
{
    check(offers, ports)?;
    check(hits, ports)?;
    Ok(())
}
