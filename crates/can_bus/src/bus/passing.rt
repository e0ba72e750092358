//! A frame that passes a bus in one step. This is possible if all ports that take part are idle or in suspend
//! transmission with no overload frame requested, and one frame has priority over all others with which they start.
//! If no hit falls in it, its levels and its effects are known at its start. Frames offered during it wait until it
//! ends, so they may be offered after it, unless the queue of its transmitter may be full. If a hit falls in it, the
//! transmitter samples the levels before the hit, and the others receive as much as it has sent.
ghost use Rattle.std.specs.Prelude.{ℕ, ◌≡◌, ◌+◌, ◌-◌, ◌<◌, ◌≤◌, ◌^◌, drop, length, map, take, slice_get, slice_index_or, IfSome, IsNone, IsTrue, Some};
ghost use Rattle.can_frame.specs.Arbitration.{arbitration_field};
ghost use Rattle.can_frame.specs.Parts.{IsFrame, Parts};
ghost use Rattle.can_wire.specs.Wire.{stuffed_part};
ghost use Rattle.can_mac.specs.Frames.{with_intermission};
ghost use Rattle.can_node.specs.Passing.{HasHeardFirst};
ghost use Rattle.can_node.specs.Ports.{port_run};
ghost use Rattle.can_bus.specs.declared.offer.Offer.{Offer as Asked};
ghost use Rattle.can_bus.specs.Offers.{call_after, call_level, call_refused, offered_now, AreOffered};
ghost use Rattle.can_bus.specs.Passing.{HasRoom, IsReceived, MayPass, MayPassAll, PassesAt, PassesBus, PassesBy, PassesByAll, PassesFrom, Receives, due_before, made_behind, refused_behind, rest_run};
ghost use Rattle.can_bus.specs.Run.{BusState, bus_after, recorded};
ghost use Rattle.can_bus.specs.State.{bus_state, port_count, port_states, rest_of};
ghost use Rattle.can_bus.specs.Walks.{HitsRise, IsCall, IsReached, call_on};

use crate::bus::Bus;
use crate::bus::line::{END, LONGEST_LINE, SHORTEST_LINE, lay_out};
use crate::bus::play_disturbed::Progress;
use crate::call::Call;
use crate::moment::rest_after;
use crate::offer::Offer;
use can_frame::{Frame, IDLE_ROW, Key, Level};
use can_mac::Poised;
use can_node::Port;
use can_terms::Hit;
use std::cmp::Ordering;

/// A frame that is hit is ridden only for at least this many bit times. Chosen for speed; the proofs need only a
/// value above 1.
const SHORTEST_RIDE: usize = 16;

impl<P: Port> Bus<P> {
    /// Runs the bit times of a whole frame and its intermission, and records their levels, if a frame can pass the
    /// bus in one step. If a hit falls in it, it runs only bit times before the hit. `driven` is the wired level. It
    /// returns how many bit times it has run, 0 if no frame can pass.
    #[inline(always)]
    pub(super) fn pass_frame(
        &mut self,
        hits: &[Hit],
        call: &mut Call,
        driven: Level,
        rec: &mut [Level],
    ) -> usize
        requires rising { HitsRise hits.now }
        requires call { IsCall hits.now call.old }
        requires time { call.old.time + length rec.old < 2 ^ 64 }
        ensures most { result ≤ length rec.old }
        ensures levels { (t : ℕ) (d : Level) → t < result → slice_index_or rec.new t d ≡ recorded hits.now (bus_after hits.now t (call_on (bus_state P.port self.old) call.old)) }
        ensures after { call_on (bus_state P.port self.new) call.new ≡ bus_after hits.now result (call_on (bus_state P.port self.old) call.old) }
        ensures call { IsCall hits.now call.new }
        ensures time { call.new.time ≡ call.old.time + result }
    {
        if driven.is_recessive() || self.rest != IDLE_ROW || rec.len() < SHORTEST_LINE {
            return 0;
        }
        let Some(passing) = first_frame(self.ports.as_slice()) else {
            return 0;
        };
        let count = lay_out(&passing.frame, rec);
        if count == 0 {
            return 0;
        }
        let Some(later) = call.behind(hits, count) else {
            return self.ride_frame(&passing, hits, call, &rec[..count]);
        };
        pass_all(self.ports.as_mut_slice(), &passing.frame, &rec[..count]);
        *call = later;
        count
    }

    /// Runs the first bit times of a frame that passes the bus, with these levels: before the next hit, and at most
    /// to the end of its stuffed part. It returns how many they are, 0 if they are few.
    #[inline(never)]
    fn ride_frame(
        &mut self,
        passing: &Passing,
        hits: &[Hit],
        call: &mut Call,
        levels: &[Level],
    ) -> usize
        requires rested { rest_of self.old ≡ 11 }
        requires whole { IsFrame passing.now.frame }
        requires place { passing.now.place < port_count self.old }
        requires levels { levels.now ≡ with_intermission passing.now.frame }
        requires passes { PassesBus passing.now.frame (port_states P.port self.old) }
        requires received { IsReceived passing.now.frame (port_states P.port self.old) }
        requires rising { HitsRise hits.now }
        requires call { IsCall hits.now call.old }
        requires time { call.old.time + length levels.now < 2 ^ 64 }
        ensures most { result ≤ length levels.now }
        ensures levels { (t : ℕ) (d : Level) → t < result → slice_index_or levels.now t d ≡ recorded hits.now (bus_after hits.now t (call_on (bus_state P.port self.old) call.old)) }
        ensures after { call_on (bus_state P.port self.new) call.new ≡ bus_after hits.now result (call_on (bus_state P.port self.old) call.old) }
        ensures call { IsCall hits.now call.new }
        ensures time { call.new.time ≡ call.old.time + result }
    {
        let most = levels.len().saturating_sub(END.len() + 1);
        if most < SHORTEST_RIDE {
            return 0;
        }
        let Some(later) = call.up_to_hit(hits, most) else {
            return 0;
        };
        let count = (later.time - call.time) as usize;
        if count < SHORTEST_RIDE {
            return 0;
        }
        let front = &levels[..count];
        ride_all(self.ports.as_mut_slice(), passing, front);
        self.rest = rest_behind(self.rest, front);
        *call = later;
        count
    }

    /// Runs a whole frame and its intermission, with the offers that fall in it. These are made after the frame, to
    /// the same effect, if the transmitter's queue has space for those to its port. `driven` is the wired level, and
    /// the offers of the first bit time have been made. It returns 0 if no offer falls in the longest frame, and
    /// leaves the frame to `pass_frame`.
    #[inline(always)]
    pub(super) fn pass_open_frame(
        &mut self,
        offers: &[Offer],
        hits: &[Hit],
        call: &mut Call,
        driven: Level,
        progress: &mut Progress,
        rec: &mut [Level],
    ) -> usize
        requires offered { AreOffered (port_count self.old) offers.now }
        requires rising { HitsRise hits.now }
        requires call { IsCall hits.now call.old }
        requires time { call.old.time + length rec.old < 2 ^ 64 }
        requires reached { IsReached offers.now progress.old.place (call.old.time + 1) }
        requires refused { progress.old.refused ≤ progress.old.place }
        ensures most { result ≤ length rec.old }
        ensures after { 0 < result → (bus : BusState) → call_on (bus_state P.port self.old) call.old ≡ offered_now offers.now (call_after offers.now hits.now call.old.time bus)
            → call_on (bus_state P.port self.new) call.new ≡ call_after offers.now hits.now (call.old.time + result) bus }
        ensures levels { (bus : BusState) → call_on (bus_state P.port self.old) call.old ≡ offered_now offers.now (call_after offers.now hits.now call.old.time bus)
            → (t : ℕ) (d : Level) → t < result → slice_index_or rec.new t d ≡ call_level offers.now hits.now (call.old.time + t) bus }
        ensures count { 0 < result → (bus : BusState) → call_on (bus_state P.port self.old) call.old ≡ offered_now offers.now (call_after offers.now hits.now call.old.time bus)
            → progress.old.refused ≡ call_refused offers.now hits.now (call.old.time + 1) bus
            → progress.new.refused ≡ call_refused offers.now hits.now (call.old.time + result) bus }
        ensures reached { 0 < result → IsReached offers.now progress.new.place (call.old.time + result) }
        ensures refused { progress.new.refused ≤ progress.new.place }
        ensures ports { port_count self.new ≡ port_count self.old }
        ensures call { IsCall hits.now call.new }
        ensures time { call.new.time ≡ call.old.time + result }
        ensures unpassed { result ≡ 0 → call_on (bus_state P.port self.new) call.new ≡ call_on (bus_state P.port self.old) call.old }
        ensures unmade { result ≡ 0 → progress.new ≡ progress.old }
    {
        if driven.is_recessive() || self.rest != IDLE_ROW || rec.len() < SHORTEST_LINE {
            return 0;
        }
        let longest = call.time.saturating_add(LONGEST_LINE as u64);
        if time_before(offers, progress.place, longest).is_none() {
            return 0;
        }
        let Some(passing) = first_frame(self.ports.as_slice()) else {
            return 0;
        };
        let count = lay_out(&passing.frame, rec);
        if count == 0 {
            return 0;
        }
        let begun = call.time;
        let Some(later) = call.behind(hits, count) else {
            return 0;
        };
        let own = offers_to(offers, progress.place, passing.place, later.time);
        if !has_room(self.ports.as_slice(), passing.place, own) {
            return 0;
        }
        pass_all(self.ports.as_mut_slice(), &passing.frame, &rec[..count]);
        *call = later;
        self.make_behind(offers, begun, later.time, progress);
        count
    }

    /// Makes the offers after time `begun` and before time `end`, in their order.
    #[inline(never)]
    fn make_behind(&mut self, offers: &[Offer], begun: u64, end: u64, progress: &mut Progress)
        requires offered { AreOffered (port_count self.old) offers.now }
        requires later { begun < end }
        requires reached { IsReached offers.now progress.old.place (begun + 1) }
        requires refused { progress.old.refused ≤ progress.old.place }
        ensures ports { port_states P.port self.new ≡ made_behind offers.now begun (end - begun - 1) (port_states P.port self.old) }
        ensures size { port_count self.new ≡ port_count self.old }
        ensures rest { rest_of self.new ≡ rest_of self.old }
        ensures count { progress.new.refused ≡ progress.old.refused + refused_behind offers.now begun (end - begun - 1) (port_states P.port self.old) }
        ensures reached { IsReached offers.now progress.new.place end }
        ensures refused { progress.new.refused ≤ progress.new.place }
    {
        // the time up to which all offers have been made
        let mut made = begun;
        while let Some(time) = time_before(offers, progress.place, end) {
            self.make_all(offers, time, progress);
            made = time;
        }
    }
}

/// The time of the offer at this place, if there is one and it is before `end`.
fn time_before(offers: &[Offer], place: usize, end: u64) -> Option<u64>
    ensures some { IfSome result (λ time. (offer : Asked) × (slice_get offers.now place ≡ Some offer) × (offer.time ≡ time)) }
    ensures early { IfSome result (λ time. time < end) }
    ensures none { IsNone result → (offer : Asked) → slice_get offers.now place ≡ Some offer → end ≤ offer.time }
{
    let offer = offers.get(place)?;
    if offer.time < end {
        Some(offer.time)
    } else {
        None
    }
}

/// How many of the offers from this place on, before time `end`, are to this port.
#[inline(never)]
fn offers_to(offers: &[Offer], place: usize, node: usize, end: u64) -> usize
    requires { (m n : ℕ) (a b : Asked) → m ≤ n → slice_get offers.now m ≡ Some a → slice_get offers.now n ≡ Some b → a.time ≤ b.time }
    ensures { result ≡ due_before node end (drop place offers.now) }
{
    let mut count = 0;
    let mut next = place;
    while next < offers.len() && offers[next].time < end {
        if offers[next].node == node {
            count += 1;
        }
        next += 1;
    }
    count
}

/// Whether the queue of the port at this place has space for `count` more frames.
#[inline(never)]
fn has_room<P: Port>(ports: &[P], place: usize, count: usize) -> bool
    ensures { IsTrue result → HasRoom place count 0 (map P.port ports.now) }
{
    if count == 0 {
        return true;
    }
    match ports.get(place) {
        Some(port) => port.has_room(count),
        None => false,
    }
}

/// A frame that passes a bus in one step, and the place of its transmitter.
#[derive(Clone, Copy)]
struct Passing {
    place: usize,
    frame: Frame,
}

/// The frame that can pass a bus with these ports in one step, if there is one and a port receives it.
#[inline(never)]
fn first_frame<P: Port>(ports: &[P]) -> Option<Passing>
    ensures passes { IfSome result (λ passing. PassesBus passing.frame (map P.port ports.now)) }
    ensures received { IfSome result (λ passing. IsReceived passing.frame (map P.port ports.now)) }
    ensures sender { IfSome result (λ passing. PassesAt passing.frame passing.place 0 (map P.port ports.now)) }
    ensures whole { IfSome result (λ passing. IsFrame passing.frame) }
    ensures place { IfSome result (λ passing. passing.place < length ports.now) }
{
    let place = first_place(ports)?;
    if place >= ports.len() {
        return None;
    }
    let frame = own_frame(&ports[place])?;
    // reading the bytes of a frame shows the prover that it is within its limits
    let _ = frame.bytes();
    let before = is_received(&ports[..place], &frame)?;
    let behind = is_received(&ports[place + 1..], &frame)?;
    if before || behind {
        Some(Passing { place, frame })
    } else {
        None
    }
}

/// The frame with which a port starts, if that may pass it in one step.
#[inline(always)]
fn own_frame<P: Port>(port: &P) -> Option<Frame>
    ensures { IfSome result (λ frame. PassesFrom frame (P.port port.now)) }
{
    match port.poised() {
        Poised::ToSend(frame) => Some(frame),
        Poised::ToReceive | Poised::Not => None,
    }
}

/// A port that starts with a frame.
#[derive(Clone, Copy)]
struct Contender {
    place: usize,
    /// The arbitration field of the frame.
    key: Key,
}

/// The place of the port that starts with the highest-priority frame, if a frame may pass all ports in one step.
fn first_place<P: Port>(ports: &[P]) -> Option<usize> {
    let mut first: Option<Contender> = None;
    for (place, port) in ports.iter().enumerate() {
        match port.poised() {
            Poised::Not if port.stands_aside() => {}
            Poised::Not => return None,
            Poised::ToReceive => {}
            Poised::ToSend(frame) => {
                let key = frame.key();
                first = Some(first_of(first, Contender { place, key }));
            }
        }
    }
    Some(first?.place)
}

/// Of two ports, the one whose frame has the higher priority.
#[inline(always)]
fn first_of(one: Option<Contender>, other: Contender) -> Contender {
    match one {
        Some(one) if one.key <= other.key => one,
        _ => other,
    }
}

/// Whether one of these ports receives the frame; `None` if it cannot pass all of them in one step.
fn is_received<P: Port>(ports: &[P], frame: &Frame) -> Option<bool>
    ensures passes { IfSome result (λ received. PassesByAll frame.now (map P.port ports.now)) }
    ensures received { IfSome result (λ received. IsTrue received → IsReceived frame.now (map P.port ports.now)) }
{
    let key = frame.key();
    let mut received = false;
    for port in ports {
        if receives(port, key)? {
            received = true;
        }
    }
    Some(received)
}

/// Whether a port receives the frame with this arbitration field; `None` if it cannot pass the port in one step. A
/// port that takes no part in the frame does not receive it.
#[inline(always)]
fn receives<P: Port>(port: &P, key: Key) -> Option<bool>
    ensures passes { IfSome result (λ receives. (frame : Parts) → arbitration_field frame ≡ key → PassesBy frame (P.port port.now)) }
    ensures receives { IfSome result (λ receives. IsTrue receives → (frame : Parts) → arbitration_field frame ≡ key → Receives frame (P.port port.now)) }
{
    match port.poised() {
        Poised::Not if port.stands_aside() => Some(false),
        Poised::Not => None,
        Poised::ToReceive => Some(true),
        Poised::ToSend(own) => {
            if key.cmp(&own.key()) == Ordering::Less {
                Some(true)
            } else {
                None
            }
        }
    }
}

/// All ports take the frame in one step.
#[inline(never)]
fn pass_all<P: Port>(ports: &mut [P], frame: &Frame, levels: &[Level])
    requires whole { IsFrame frame.now }
    requires levels { levels.now ≡ with_intermission frame.now }
    requires passes { PassesBus frame.now (map P.port ports.old) }
    ensures { map P.port ports.new ≡ map (λ p. port_run p levels.now) (map P.port ports.old) }
{
    for port in ports.iter_mut() {
        pass_one(port, frame, levels);
    }
}

/// A port takes the frame in one step. A port that takes no part in it samples its levels.
fn pass_one<P: Port>(port: &mut P, frame: &Frame, levels: &[Level])
    requires whole { IsFrame frame.now }
    requires levels { levels.now ≡ with_intermission frame.now }
    requires passes { MayPass frame.now (P.port port.old) }
    ensures { P.port port.new ≡ port_run (P.port port.old) levels.now }
{
    match port.poised() {
        Poised::Not => port.turn_through(levels),
        Poised::ToReceive | Poised::ToSend(_) => port.take_frame(frame, levels),
    }
}

/// All ports sample the first levels of a frame: its transmitter level by level; the others are set to what it has
/// received.
fn ride_all<P: Port>(ports: &mut [P], passing: &Passing, levels: &[Level])
    requires whole { IsFrame passing.now.frame }
    requires place { passing.now.place < length ports.old }
    requires levels { levels.now ≡ take (length levels.now) (with_intermission passing.now.frame) }
    requires some { 0 < length levels.now }
    requires within { length levels.now < length (stuffed_part passing.now.frame) }
    requires passes { PassesBus passing.now.frame (map P.port ports.old) }
    ensures { map P.port ports.new ≡ map (λ p. port_run p levels.now) (map P.port ports.old) }
{
    let (before, others) = ports.split_at_mut(passing.place);
    let Some((sender, behind)) = others.split_first_mut() else {
        return;
    };
    sender.turn_through(levels);
    ride_others(before, sender, &passing.frame, levels);
    ride_others(behind, sender, &passing.frame, levels);
}

/// Ports sample the first levels of a frame, which another port has sampled.
fn ride_others<P: Port>(ports: &mut [P], leader: &P, frame: &Frame, levels: &[Level])
    requires whole { IsFrame frame.now }
    requires levels { levels.now ≡ take (length levels.now) (with_intermission frame.now) }
    requires some { 0 < length levels.now }
    requires within { length levels.now < length (stuffed_part frame.now) }
    requires passes { MayPassAll frame.now (map P.port ports.old) }
    requires leader { HasHeardFirst frame.now (length levels.now) (P.port leader.now).mac.phase }
    ensures { map P.port ports.new ≡ map (λ p. port_run p levels.now) (map P.port ports.old) }
{
    for port in ports.iter_mut() {
        ride_one(port, leader, frame, levels);
    }
}

/// A port samples the first levels of a frame, which another port has sampled.
fn ride_one<P: Port>(port: &mut P, leader: &P, frame: &Frame, levels: &[Level])
    requires whole { IsFrame frame.now }
    requires levels { levels.now ≡ take (length levels.now) (with_intermission frame.now) }
    requires some { 0 < length levels.now }
    requires within { length levels.now < length (stuffed_part frame.now) }
    requires passes { MayPass frame.now (P.port port.old) }
    requires leader { HasHeardFirst frame.now (length levels.now) (P.port leader.now).mac.phase }
    ensures { P.port port.new ≡ port_run (P.port port.old) levels.now }
{
    match port.poised() {
        Poised::Not => port.turn_through(levels),
        Poised::ToReceive | Poised::ToSend(_) => port.ride(leader, frame, levels),
    }
}

/// The number of recessive levels recorded last, after these.
fn rest_behind(rest: u8, levels: &[Level]) -> u8
    requires { rest ≤ 11 }
    ensures { result ≡ rest_run rest levels.now }
{
    let mut last = rest;
    for level in levels {
        last = rest_after(last, *level);
    }
    last
}
