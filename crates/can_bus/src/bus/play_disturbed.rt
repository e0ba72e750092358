//! A run of a bus with offers and hits: a network.
ghost use Rattle.std.specs.Prelude.{ℕ, ◌≡◌, ◌+◌, ◌<◌, ◌≤◌, ◌^◌, ◌↔◌, ◌⊎◌, not, length, slice_get, slice_index_or, Ok, Some, IsOk, OnOk, OnErr, IfErr, IfOk};
ghost use Rattle.can_frame.specs.IdleRow.{idle_row};
ghost use Rattle.can_frame.specs.Parts.{IsFrame};
ghost use Rattle.can_bus.specs.declared.offer.Offer.{Offer as Asked};
ghost use Rattle.can_bus.specs.Course.{AllEnded, course_at, hits_made};
ghost use Rattle.can_bus.specs.DisturbedPlay.{WasPlayed};
ghost use Rattle.can_terms.specs.Hits.{AreTaken};
ghost use Rattle.can_bus.specs.Inputs.{IsFirstHitFault};
ghost use Rattle.can_bus.specs.Network.{AllCountAtMost, AllOver, CountsAtMost, NetworkLogBegins, NetworkLogHas, NetworkLogWhole, NetworkTally, OnNetworkCall, RestsAgain, StaysActive};
ghost use Rattle.can_bus.specs.Offers.{call_after, call_level, call_refused, offered_now, AreOffered, IsFirstOfferFault, all_made, is_full, made, refused_at};
ghost use Rattle.can_bus.specs.Quiet.{AtEachPort, MissesNothing, AtEachNode};
ghost use Rattle.can_bus.specs.Run.{AreLevelsOf, BusState};
ghost use Rattle.can_bus.specs.State.{bus_state, port_count, port_states, rest_of};
ghost use Rattle.can_bus.specs.Walks.{HitsRise, IsCall, IsReached, call_on};

use crate::bus::Bus;
use crate::call::Call;
use crate::check::check_call;
use crate::fault::BusFault;
use crate::offer::Offer;
use crate::wire::wired_level;
use can_frame::Level;
use can_node::Port;
use can_terms::Hit;

/// The offers made so far: those before this place, of which `refused` found a full queue.
#[derive(Clone, Copy)]
pub(super) struct Progress {
    pub(super) place: usize,
    pub(super) refused: usize,
}

impl<P: Port> Bus<P> {
    /// Makes an offer to its port. Returns whether the queue had space for it.
    fn make(&mut self, offer: Offer) -> bool
        requires named { offer.node < port_count self.old }
        ensures ports { port_states P.port self.new ≡ made offer 0 (port_states P.port self.old) }
        ensures rest { rest_of self.new ≡ rest_of self.old }
        ensures answer { result ≡ not (is_full offer.node (port_states P.port self.old)) }
    {
        self.ports[offer.node].offer(offer.frame).is_ok()
    }

    /// Makes the offers of this time, in their order.
    pub(super) fn make_all(&mut self, offers: &[Offer], time: u64, progress: &mut Progress)
        requires offered { AreOffered (port_count self.old) offers.now }
        requires reached { IsReached offers.now progress.old.place time }
        requires refused { progress.old.refused ≤ progress.old.place }
        ensures ports { port_states P.port self.new ≡ all_made offers.now time (port_states P.port self.old) }
        ensures size { port_count self.new ≡ port_count self.old }
        ensures rest { rest_of self.new ≡ rest_of self.old }
        ensures count { progress.new.refused ≡ progress.old.refused + refused_at offers.now time (port_states P.port self.old) }
        ensures reached { IsReached offers.now progress.new.place (time + 1) }
        ensures refused { progress.new.refused ≤ progress.new.place }
    {
        while progress.place < offers.len() && offers[progress.place].time == time {
            if !self.make(offers[progress.place]) {
                progress.refused += 1;
            }
            progress.place += 1;
        }
    }

    /// The number of bit times, from this one on, before the next offer; at most `most`. The offers of this one have
    /// been made.
    fn until_offer(&self, offers: &[Offer], progress: &Progress, time: u64, most: usize) -> usize
        requires offered { AreOffered (port_count self.now) offers.now }
        requires reached { IsReached offers.now progress.now.place (time + 1) }
        requires some { 0 < most }
        ensures some { 0 < result }
        ensures most { result ≤ most }
        ensures reached { IsReached offers.now progress.now.place (time + result) }
    {
        if progress.place < offers.len() {
            (offers[progress.place].time - time).min(most as u64) as usize
        } else {
            most
        }
    }

    /// Runs some bit times, in the first of which the offers have been made, and records their levels. It runs a
    /// whole frame with the offers that fall in it, if one passes the bus in one step; otherwise some bit times
    /// before the next offer. It returns how many they are.
    fn advance(
        &mut self,
        offers: &[Offer],
        hits: &[Hit],
        call: &mut Call,
        progress: &mut Progress,
        rec: &mut [Level],
    ) -> usize
        requires some { 0 < length rec.old }
        requires offered { AreOffered (port_count self.old) offers.now }
        requires rising { HitsRise hits.now }
        requires call { IsCall hits.now call.old }
        requires time { call.old.time + length rec.old < 2 ^ 64 }
        requires reached { IsReached offers.now progress.old.place (call.old.time + 1) }
        requires refused { progress.old.refused ≤ progress.old.place }
        ensures some { 1 ≤ result }
        ensures most { result ≤ length rec.old }
        ensures after { (bus : BusState) → call_on (bus_state P.port self.old) call.old ≡ offered_now offers.now (call_after offers.now hits.now call.old.time bus)
            → call_on (bus_state P.port self.new) call.new ≡ call_after offers.now hits.now (call.old.time + result) bus }
        ensures levels { (bus : BusState) → call_on (bus_state P.port self.old) call.old ≡ offered_now offers.now (call_after offers.now hits.now call.old.time bus)
            → (t : ℕ) (d : Level) → t < result → slice_index_or rec.new t d ≡ call_level offers.now hits.now (call.old.time + t) bus }
        ensures count { (bus : BusState) → call_on (bus_state P.port self.old) call.old ≡ offered_now offers.now (call_after offers.now hits.now call.old.time bus)
            → progress.old.refused ≡ call_refused offers.now hits.now (call.old.time + 1) bus
            → progress.new.refused ≡ call_refused offers.now hits.now (call.old.time + result) bus }
        ensures reached { IsReached offers.now progress.new.place (call.old.time + result) }
        ensures refused { progress.new.refused ≤ progress.new.place }
        ensures ports { port_count self.new ≡ port_count self.old }
        ensures call { IsCall hits.now call.new }
        ensures time { call.new.time ≡ call.old.time + result }
    {
        let driven = wired_level(self.ports.as_slice());
        let passed = self.pass_open_frame(offers, hits, call, driven, progress, rec);
        if passed > 0 {
            return passed;
        }
        let count = self.until_offer(offers, progress, call.time, rec.len());
        self.advance_to_offer(hits, call, driven, &mut rec[..count])
    }

    /// Runs one bit time for each place of `rec`, with offers and hits, and records the level of each. It returns how
    /// many offers found a full queue. Offers are made as by `play`, and hits fall as in `run`.
    ///
    /// Offers must be in order, hits in strictly rising order, and all must name ports of the bus. Otherwise it
    /// returns the first fault, offers being checked before hits; nothing has run, and `rec` and all ports are
    /// unchanged. It allocates no memory.
    ///
    /// On a network:
    /// - the bus is at rest, with two ports or more, all idle, error active and with no overload frame requested;
    /// - each queue has capacity for all that its port holds and is offered, each log for all frames;
    /// - each arbitration field belongs to one port;
    /// - at most one hit falls in an attempt, in the window of its frame, and no counter of a port reaches 128.
    ///
    /// Then the attempts are those of the course, and so are the recorded levels. After its earlier entries, each log
    /// has the frames of the attempts that are not hit, in their order, as sent at the port that had the frame, and
    /// as received at each other port; each frame whose wire has ended is there. After the last attempt all are, and
    /// the counters are those of the tally. No offer is returned, all ports stay error active, and no entry is
    /// missed. Three bit times later the bus is at rest again, with nothing left to send, and another such call can
    /// follow.
    pub fn play_disturbed(
        &mut self,
        offers: &[Offer],
        hits: &[Hit],
        rec: &mut [Level],
    ) -> Result<usize, BusFault>
        ensures taken { IsOk result ↔ (AreOffered (port_count self.old) offers.now × AreTaken (port_count self.old) hits.now) }
        ensures fault { IfErr result (λ fault. IsFirstOfferFault (port_count self.old) offers.now fault
            ⊎ (AreOffered (port_count self.old) offers.now × IsFirstHitFault (port_count self.old) hits.now fault)) }
        ensures bus { OnOk result (bus_state P.port self.new ≡ (call_after offers.now hits.now (length rec.new) (bus_state P.port self.old)).bus) }
        ensures levels { OnOk result (AreLevelsOf (λ t. call_level offers.now hits.now t (bus_state P.port self.old)) rec.new) }
        ensures disturbed { IfOk result (λ count. rest_of self.old ≤ idle_row → WasPlayed offers.now hits.now (bus_state P.port self.old) rec.new (bus_state P.port self.new) count) }
        ensures count { IfOk result (λ count. count ≡ call_refused offers.now hits.now (length rec.new) (bus_state P.port self.old)) }
        ensures known { IsOk result → (n : ℕ) (offer : Asked) → slice_get offers.now n ≡ Some offer → IsFrame offer.frame }
        ensures answer { OnNetworkCall offers.now hits.now (bus_state P.port self.old) (λ course. result ≡ Ok 0) }
        ensures course { OnNetworkCall offers.now hits.now (bus_state P.port self.old) (λ course. AreLevelsOf (course_at course) rec.new) }
        ensures network_logs { OnNetworkCall offers.now hits.now (bus_state P.port self.old) (λ course.
            AtEachNode (NetworkLogBegins offers.now course) (port_states P.port self.old) (port_states P.port self.new)) }
        ensures network_has { OnNetworkCall offers.now hits.now (bus_state P.port self.old) (λ course.
            AtEachNode (NetworkLogHas offers.now course (length rec.new)) (port_states P.port self.old) (port_states P.port self.new)) }
        ensures network_whole { OnNetworkCall offers.now hits.now (bus_state P.port self.old) (λ course. AllEnded course (length rec.new) →
            AtEachNode (NetworkLogWhole offers.now course) (port_states P.port self.old) (port_states P.port self.new)) }
        ensures network_tally { OnNetworkCall offers.now hits.now (bus_state P.port self.old) (λ course. AllEnded course (length rec.new) →
            AtEachNode (NetworkTally offers.now course) (port_states P.port self.old) (port_states P.port self.new)) }
        ensures network_active { OnNetworkCall offers.now hits.now (bus_state P.port self.old) (λ course.
            AtEachPort StaysActive (port_states P.port self.old) (port_states P.port self.new)) }
        ensures network_counts { OnNetworkCall offers.now hits.now (bus_state P.port self.old) (λ course. (errors : ℕ) → AllCountAtMost errors (port_states P.port self.old) →
            AtEachPort (λ p q. CountsAtMost (errors + hits_made course) q) (port_states P.port self.old) (port_states P.port self.new)) }
        ensures network_missed { OnNetworkCall offers.now hits.now (bus_state P.port self.old) (λ course.
            AtEachPort MissesNothing (port_states P.port self.old) (port_states P.port self.new)) }
        ensures network_rests { OnNetworkCall offers.now hits.now (bus_state P.port self.old) (λ course. AllOver course (length rec.new) →
            RestsAgain (bus_state P.port self.old) (bus_state P.port self.new)) }
        ensures unchanged { OnErr result (self.new ≡ self.old) }
        ensures unrecorded { OnErr result (rec.new ≡ rec.old) }
    {
        check_call(offers, hits, self.ports.len())?;
        let mut call = Call::new();
        let mut progress = Progress {
            place: 0,
            refused: 0,
        };
        let mut place = 0;
        while place < rec.len() {
            self.make_all(offers, call.time, &mut progress);
            place += self.advance(offers, hits, &mut call, &mut progress, &mut rec[place..]);
        }
        Ok(progress.refused)
    }
}
