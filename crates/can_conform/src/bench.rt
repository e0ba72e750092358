//! The test bench: plays the reference through a case, bit time by bit time.
ghost use Rattle.std.specs.Prelude.{◌≡◌, ◌<◌, ◌+◌, ◌-◌, ◌^◌, ◌==◌, if◌then◌else◌, IfOk};
ghost use Rattle.can_node.specs.Ports.{port_drives, with_offer};
ghost use Rattle.can_conform.specs.Runs.{all_handed, before, handed, met, moment_at, told_event, wished};
ghost use Rattle.can_conform.specs.Walks.{Foresees};

use crate::meeting::{Meeting, counters_of, meet, started_node};
use crate::moment::Moment;
use crate::outlook::Outlook;
use can_frame::{Frame, Level};
use can_node::{PackedNode, Port};
use can_terms::{Event, Script, TesterLevel, Timed};
use std::alloc::{AllocError, Global};

/// The reference before a bit time.
#[derive(Drop)]
pub(crate) struct Bench {
    pub(crate) node: PackedNode,
    pub(crate) time: u32,
    pub(crate) outlook: Outlook,
}

/// Offers the frames of this time, in their order.
fn offer_all<P: Port>(port: &mut P, offers: &[Timed<Frame>], time: u32)
    ensures { P.port port.new ≡ all_handed with_offer offers.now time (P.port port.old) }
{
    for offer in offers {
        offer_at(port, offer, time);
    }
}

/// Offers a frame, if this is its time.
fn offer_at<P: Port>(port: &mut P, offer: &Timed<Frame>, time: u32)
    ensures { P.port port.new ≡ (if offer.now.time == time then with_offer offer.now.told (P.port port.old) else P.port port.old) }
{
    if offer.time == time {
        let _ = port.offer(offer.told);
    }
}

/// Passes on the overload requests of this time, in their order.
fn wish_all<P: Port>(port: &mut P, holds: &[Timed<u8>], time: u32)
    ensures { P.port port.new ≡ all_handed wished holds.now time (P.port port.old) }
{
    for hold in holds {
        wish_at(port, hold, time);
    }
}

/// Passes on an overload request, if this is its time.
fn wish_at<P: Port>(port: &mut P, hold: &Timed<u8>, time: u32)
    ensures { P.port port.new ≡ (if hold.now.time == time then wished hold.now.told (P.port port.old) else P.port port.old) }
{
    if hold.time == time {
        let _ = port.hold(hold.told);
    }
}

impl Bench {
    /// The reference before bit time 0.
    pub(crate) fn begin(alloc: Global, script: &Script) -> Result<Bench, AllocError>
        ensures port { IfOk result (λ b. ⟦<PackedNode as Port>⟧.port b.node ≡ before script.now 0) }
        ensures time { IfOk result (λ b. b.time ≡ 0) }
        ensures foresees { IfOk result (λ b. Foresees script.now 0 b.outlook) }
    {
        let node = started_node(alloc, script.start)?;
        Ok(Bench {
            node,
            time: 0,
            outlook: Outlook::begin(),
        })
    }

    /// Plays the next bit time. After the end of the case nothing happens.
    pub(crate) fn step(&mut self, script: &Script) -> Moment
        requires port { ⟦<PackedNode as Port>⟧.port self.old.node ≡ before script.now self.old.time }
        requires foresees { Foresees script.now self.old.time self.old.outlook }
        requires time { self.old.time < 2 ^ 32 - 1 }
        ensures port { ⟦<PackedNode as Port>⟧.port self.new.node ≡ before script.now (self.old.time + 1) }
        ensures foresees { Foresees script.now (self.old.time + 1) self.new.outlook }
        ensures time { self.new.time ≡ self.old.time + 1 }
        ensures moment { result ≡ moment_at script.now self.old.time }
    {
        let Some(tester) = script.tester.get(self.time as usize) else {
            self.time += 1;
            return Moment {
                drove: None,
                event: None,
                counters: counters_of(&self.node),
            };
        };
        let (drove, event) = self.play(script, *tester);
        self.time += 1;
        Moment {
            drove: Some(drove),
            event,
            counters: counters_of(&self.node),
        }
    }

    /// Plays a bit time of the case, with this tester level.
    fn play(&mut self, script: &Script, tester: TesterLevel) -> (Level, Option<Event>)
        requires { Foresees script.now self.old.time self.old.outlook }
        ensures port { ⟦<PackedNode as Port>⟧.port self.new.node ≡ met tester (handed script.now self.old.time (⟦<PackedNode as Port>⟧.port self.old.node)) }
        ensures foresees { Foresees script.now (self.old.time + 1) self.new.outlook }
        ensures time { self.new.time ≡ self.old.time }
        ensures drove { result.0 ≡ port_drives (handed script.now self.old.time (⟦<PackedNode as Port>⟧.port self.old.node)) }
        ensures event { result.1 ≡ told_event tester (handed script.now self.old.time (⟦<PackedNode as Port>⟧.port self.old.node)) }
    {
        hand_over_due(&mut self.node, script, self.time, &mut self.outlook);
        let Meeting { drove, event, .. } = meet(&mut self.node, tester);
        (drove, event)
    }
}

/// Passes on the frames and requests of this time. The lists are searched only if some may come.
fn hand_over_due<P: Port>(port: &mut P, script: &Script, time: u32, outlook: &mut Outlook)
    requires { Foresees script.now time outlook.old }
    ensures port { P.port port.new ≡ handed script.now time (P.port port.old) }
    ensures foresees { Foresees script.now (time + 1) outlook.new }
{
    if outlook.may_come(script, time) {
        hand_over(port, script, time);
    }
}

/// Passes on the frames and requests of this time.
fn hand_over<P: Port>(port: &mut P, script: &Script, time: u32)
    ensures { P.port port.new ≡ handed script.now time (P.port port.old) }
{
    offer_all(port, &script.offers, time);
    wish_all(port, &script.holds, time);
}
