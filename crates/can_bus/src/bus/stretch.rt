//! Bit times before the next offer: those of a bus at rest and those of a frame pass in one step, others level by
//! level.
ghost use Rattle.std.specs.Prelude.{ℕ, ◌≡◌, ◌+◌, ◌<◌, ◌≤◌, ◌^◌, length, map, slice_index_or, IsTrue};
ghost use Rattle.can_frame.specs.declared.level.Level.TheVariants.{Recessive};
ghost use Rattle.can_node.specs.Ports.{port_drives, port_step};
ghost use Rattle.can_bus.specs.Run.{bus_after, recorded};
ghost use Rattle.can_bus.specs.State.{bus_state, port_states};
ghost use Rattle.can_bus.specs.Walks.{HitsRise, IsCall, call_on, rested};
ghost use Rattle.can_bus.specs.Wired.{wired as wired_of};

use crate::bus::Bus;
use crate::call::Call;
use can_frame::{IDLE_ROW, Level};
use can_node::Port;
use can_terms::Hit;

impl<P: Port> Bus<P> {
    /// Runs at least one bit time and at most one for each place of `rec`, and records their levels. `driven` is the
    /// first wired level. It returns how many they are. A bus at rest takes no time per port.
    #[inline(always)]
    pub(super) fn advance_to_offer(
        &mut self,
        hits: &[Hit],
        call: &mut Call,
        driven: Level,
        rec: &mut [Level],
    ) -> usize
        requires some { 0 < length rec.old }
        requires driven { driven ≡ wired_of (map port_drives (port_states P.port self.old)) }
        requires rising { HitsRise hits.now }
        requires call { IsCall hits.now call.old }
        requires time { call.old.time + length rec.old < 2 ^ 64 }
        ensures some { 1 ≤ result }
        ensures most { result ≤ length rec.old }
        ensures levels { (t : ℕ) (d : Level) → t < result → slice_index_or rec.new t d ≡ recorded hits.now (bus_after hits.now t (call_on (bus_state P.port self.old) call.old)) }
        ensures after { call_on (bus_state P.port self.new) call.new ≡ bus_after hits.now result (call_on (bus_state P.port self.old) call.old) }
        ensures call { IsCall hits.now call.new }
        ensures time { call.new.time ≡ call.old.time + result }
    {
        let resting = self.resting(hits, call, driven, rec.len());
        if resting > 0 {
            rec[..resting].fill(Level::Recessive);
            call.pass(resting);
            return resting;
        }
        let passed = self.pass_frame(hits, call, driven, rec);
        if passed > 0 {
            return passed;
        }
        let count = self.level_count(rec.len());
        self.take_levels(hits, call, driven, &mut rec[..count]);
        count
    }

    /// How many of the `left` bit times to run level by level: those before the bus can be at rest, or a start of
    /// frame and eleven more if a port keeps the bus from rest. Chosen for speed; the proofs need only a value above
    /// 0.
    #[inline(always)]
    fn level_count(&self, left: usize) -> usize
        requires { 0 < left }
        ensures some { 0 < result }
        ensures most { result ≤ left }
    {
        let count = if self.rest < IDLE_ROW {
            usize::from(IDLE_ROW - self.rest)
        } else {
            1 + usize::from(IDLE_ROW)
        };
        count.min(left)
    }

    /// Runs one bit time for each place of `rec`, level by level, and records their levels. `driven` is the first
    /// wired level. It is not inlined, so that its loops have the registers to themselves; the loop without hits does
    /// not look for any.
    #[inline(never)]
    fn take_levels(&mut self, hits: &[Hit], call: &mut Call, driven: Level, rec: &mut [Level])
        requires driven { driven ≡ wired_of (map port_drives (port_states P.port self.old)) }
        requires rising { HitsRise hits.now }
        requires call { IsCall hits.now call.old }
        requires time { call.old.time + length rec.old < 2 ^ 64 }
        ensures levels { (t : ℕ) (d : Level) → t < length rec.old → slice_index_or rec.new t d ≡ recorded hits.now (bus_after hits.now t (call_on (bus_state P.port self.old) call.old)) }
        ensures after { call_on (bus_state P.port self.new) call.new ≡ bus_after hits.now (length rec.old) (call_on (bus_state P.port self.old) call.old) }
        ensures call { IsCall hits.now call.new }
        ensures time { call.new.time ≡ call.old.time + length rec.old }
    {
        if hits.is_empty() {
            self.take_each(&[], call, driven, rec);
        } else {
            self.take_each(hits, call, driven, rec);
        }
    }

    /// Runs one bit time for each place of `rec`, level by level, with any hits.
    #[inline(always)]
    fn take_each(&mut self, hits: &[Hit], call: &mut Call, first: Level, rec: &mut [Level])
        requires driven { first ≡ wired_of (map port_drives (port_states P.port self.old)) }
        requires rising { HitsRise hits.now }
        requires call { IsCall hits.now call.old }
        requires time { call.old.time + length rec.old < 2 ^ 64 }
        ensures levels { (t : ℕ) (d : Level) → t < length rec.old → slice_index_or rec.new t d ≡ recorded hits.now (bus_after hits.now t (call_on (bus_state P.port self.old) call.old)) }
        ensures after { call_on (bus_state P.port self.new) call.new ≡ bus_after hits.now (length rec.old) (call_on (bus_state P.port self.old) call.old) }
        ensures call { IsCall hits.now call.new }
        ensures time { call.new.time ≡ call.old.time + length rec.old }
    {
        let mut driven = first;
        for slot in rec.iter_mut() {
            *slot = self.take_level(hits, call, &mut driven);
        }
    }

    /// For how many bit times from this one on the bus stays at rest, at most `most`: it has been recessive for
    /// eleven bit times, all ports are at rest, and no hit falls in them. It may be fewer right after a hit.
    #[inline(always)]
    fn resting(&self, hits: &[Hit], call: &Call, driven: Level, most: usize) -> usize
        requires driven { driven ≡ wired_of (map port_drives (port_states P.port self.now)) }
        requires rising { HitsRise hits.now }
        requires call { IsCall hits.now call.now }
        requires time { call.now.time + most < 2 ^ 64 }
        requires some { 0 < most }
        ensures most { result ≤ most }
        ensures levels { (n : ℕ) → n < result → recorded hits.now (bus_after hits.now n (call_on (bus_state P.port self.now) call.now)) ≡ Recessive }
        ensures after { bus_after hits.now result (call_on (bus_state P.port self.now) call.now) ≡ rested result (call_on (bus_state P.port self.now) call.now) }
    {
        if driven.is_recessive() && self.rest == IDLE_ROW && all_rest(self.ports.as_slice()) {
            return call.undisturbed(hits, most);
        }
        0
    }
}

/// Whether all ports are at rest. It stops at the first that is not.
#[inline(never)]
fn all_rest<P: Port>(ports: &[P]) -> bool
    ensures { IsTrue result → map (λ p. port_step p Recessive) (map P.port ports.now) ≡ map P.port ports.now }
{
    for port in ports {
        if !port.rests() {
            return false;
        }
    }
    true
}
