//! Offers and hits of a bus, as plain fields for C.
ghost use Rattle.std.specs.Prelude.{◌≡◌, ◌≢◌, ◌⊎◌, None, Some, IfErr, IfOk, OnOk};
ghost use Rattle.can_c.specs.PlainFrames.{refusal};
ghost use Rattle.can_c.specs.PlainInputs.{hit_of_plain, hits_of_plain, hits_refusal, kind_refusal, offer_of_plain, offers_of_plain, offers_refusal};
ghost use Rattle.can_c.specs.PlainWires.{struck_refusal};

use crate::plain::PlainFrame;
use crate::status::Status;
use can_bus::{Hit, Offer};
use std::alloc::Global;

/// A frame that is queued at a port while a bus runs, as plain fields. Any content is allowed; a call refuses what is
/// no offer.
#[repr(C)]
#[derive(Clone, Copy, Debug)]
pub struct PlainOffer {
    /// The bit time before which it is queued; the first of the call is 0.
    pub time: u64,
    /// The index of the port; the first is 0.
    pub port: usize,
    /// The frame.
    pub frame: PlainFrame,
}

/// An injected bit error in one bit time, as plain fields. Fields that its kind does not name are not read.
#[repr(C)]
#[derive(Clone, Copy, Debug)]
pub struct PlainHit {
    /// Kinds 0 and 2: the bit time; the first of the call is 0.
    pub time: u64,
    /// Kind 1: the transmission attempt; the first of the call is 0.
    pub attempt: u64,
    /// Kind 1: how many bit times after the start of the attempt.
    pub offset: u64,
    /// Kind 2: the index of the port; the first is 0.
    pub port: usize,
    /// 0: for all nodes, the level of the bus is inverted in bit time `time`. 1: for all nodes, it is inverted `offset`
    /// bit times after the start of transmission attempt `attempt`, unless a later attempt has begun by then. 2: port
    /// `port` alone samples the inverse of the bus level, in bit time `time`.
    pub kind: u8,
}

impl PlainOffer {
    /// The offer, or the first reason why its frame is invalid.
    fn offer(&self) -> Result<Offer, Status>
        ensures refused { IfErr result (λ why. refusal self.now.frame ≡ Some why) }
        ensures none { OnOk result (refusal self.now.frame ≡ None) }
        ensures offer { IfOk result (λ offer. offer ≡ offer_of_plain self.now) }
    {
        match self.frame.frame() {
            Err(why) => Err(why),
            Ok(frame) => Ok(Offer {
                time: self.time,
                node: self.port,
                frame,
            }),
        }
    }
}

impl PlainHit {
    /// The hit, or why it is none.
    fn hit(&self) -> Result<Hit, Status>
        ensures refused { IfErr result (λ why. kind_refusal self.now ≡ Some why) }
        ensures none { OnOk result (kind_refusal self.now ≡ None) }
        ensures hit { IfOk result (λ hit. hit ≡ hit_of_plain self.now) }
    {
        match self.kind {
            0 | 1 | 2 => Ok(self.named()),
            _ => Err(Status::BadKind),
        }
    }

    /// The hit; a kind above 2 counts as 2.
    pub(crate) fn named(&self) -> Hit
        ensures { result ≡ hit_of_plain self.now }
    {
        match self.kind {
            0 => Hit::At(self.time),
            1 => Hit::In {
                attempt: self.attempt,
                offset: self.offset,
            },
            _ => Hit::View {
                time: self.time,
                node: self.port,
            },
        }
    }

    /// Checks the hit for a wire that `count` nodes drive; otherwise returns why it is invalid.
    pub(crate) fn check(&self, count: usize) -> Result<(), Status>
        ensures refused { IfErr result (λ why. struck_refusal count self.now ≡ Some why) }
        ensures named { IfErr result (λ why. why ≢ Status.Done) }
        ensures none { OnOk result (struck_refusal count self.now ≡ None) }
    {
        if self.kind > 2 {
            return Err(Status::BadKind);
        }
        if self.kind == 2 && self.port >= count {
            return Err(Status::NoSuchPort);
        }
        Ok(())
    }
}

/// The offers of plain fields; otherwise the first reason why a frame is invalid, or [`Status::NoMemory`].
pub(crate) fn read_offers(alloc: Global, plain: &[PlainOffer]) -> Result<Vec<Offer>, Status>
    ensures offers { IfOk result (λ offers. offers.items ≡ offers_of_plain plain.now) }
    ensures none { OnOk result (offers_refusal plain.now ≡ None) }
    ensures refused { IfErr result (λ why. (why ≡ Status.NoMemory) ⊎ (offers_refusal plain.now ≡ Some why)) }
{
    let mut offers = Vec::with_capacity(alloc, plain.len())?;
    for place in 0..plain.len() {
        offers.push(plain[place].offer()?)?;
    }
    Ok(offers)
}

/// The hits of plain fields; otherwise the first reason why one is invalid, or [`Status::NoMemory`].
pub(crate) fn read_hits(alloc: Global, plain: &[PlainHit]) -> Result<Vec<Hit>, Status>
    ensures hits { IfOk result (λ hits. hits.items ≡ hits_of_plain plain.now) }
    ensures none { OnOk result (hits_refusal plain.now ≡ None) }
    ensures refused { IfErr result (λ why. (why ≡ Status.NoMemory) ⊎ (hits_refusal plain.now ≡ Some why)) }
{
    let mut hits = Vec::with_capacity(alloc, plain.len())?;
    for place in 0..plain.len() {
        hits.push(plain[place].hit()?)?;
    }
    Ok(hits)
}
