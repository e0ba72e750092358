ghost use Rattle.std.specs.Prelude.{◌≡◌, ◌≢◌, Some, IfSome, length, map, option_map};
ghost use Rattle.can_frame.specs.Levels.{level_of, level_code, levels_of_codes};
ghost use Rattle.can_terms.specs.Codes.{event_code};
ghost use Rattle.can_node.specs.Ports.{port_drives, port_event, port_events, port_run, port_step};
ghost use Rattle.can_c.specs.BitTimes.{drives_over, told_frame};
ghost use Rattle.can_c.specs.Calls.{port_status, run_status, sample_status};
ghost use Rattle.can_c.specs.Statuses.{done, status_code};

use crate::controller::Controller;
use crate::handle::{Handle, with_port};
use crate::plain::PlainFrame;
use crate::status::Status;
use can_frame::Level;
use can_terms::Event;
use std::alloc::Global;

/// Writes the level that the port drives in this bit time. The port does not change.
#[unsafe(no_mangle)]
pub extern "C" fn can_c_drive(alloc: Global, handle: &mut Handle, level: &mut u8) -> u8
    ensures status { result ≡ status_code (port_status handle.old.held) }
    ensures level { IfSome handle.old.held (λ p. level.new ≡ level_code (port_drives p)) }
    ensures unchanged { handle.new.held ≡ handle.old.held }
    ensures unwritten { result ≢ done → level.new ≡ level.old }
{
    with_port!(alloc, handle, |port| {
        *level = port.drive().code();
        Status::Done
    })
}

/// Passes one bit time: the port samples the level of the bus. The call writes the number of the event, and the frame
/// if one was transmitted or received. If the call is refused, the port does not change.
#[tactic(auto, using(crate::proofs::StatusLemmas::done_only, crate::proofs::StatusLemmas::not_done))]
#[unsafe(no_mangle)]
pub extern "C" fn can_c_sample(
    alloc: Global,
    handle: &mut Handle,
    level: u8,
    event: &mut u8,
    frame: &mut PlainFrame,
) -> u8
    ensures status { result ≡ status_code (sample_status handle.old.held level) }
    ensures step { result ≡ done → handle.new.held ≡ option_map (λ p. port_step p (level_of level)) handle.old.held }
    ensures event { result ≡ done → IfSome handle.old.held (λ p. event.new ≡ event_code (port_event p (level_of level))) }
    ensures frame { result ≡ done → IfSome handle.old.held (λ p. frame.new ≡ told_frame (port_event p (level_of level)) frame.old) }
    ensures unchanged { result ≢ done → handle.new.held ≡ handle.old.held }
    ensures unwritten { result ≢ done → (event.new ≡ event.old) × (frame.new ≡ frame.old) }
{
    with_port!(alloc, handle, |port| {
        sample_code(&mut port, level, event, frame)
    })
}

/// Has a port sample a level, and writes the event and its frame.
fn sample_code(port: &mut Controller, level: u8, event: &mut u8, frame: &mut PlainFrame) -> Status
    ensures status { result ≡ sample_status (Some port.old) level }
    ensures step { result ≡ Status.Done → port.new ≡ port_step port.old (level_of level) }
    ensures event { result ≡ Status.Done → event.new ≡ event_code (port_event port.old (level_of level)) }
    ensures frame { result ≡ Status.Done → frame.new ≡ told_frame (port_event port.old (level_of level)) frame.old }
    ensures unchanged { result ≢ Status.Done → port.new ≡ port.old }
    ensures unwritten { result ≢ Status.Done → (event.new ≡ event.old) × (frame.new ≡ frame.old) }
{
    if !Level::is_code(level) {
        return Status::BadLevel;
    }
    let told = port.sample(Level::from_code(level));
    *event = Event::code_of(&told);
    tell(&told, frame);
    Status::Done
}

/// Writes the frame that was transmitted or received, if any.
fn tell(event: &Option<Event>, frame: &mut PlainFrame)
    ensures { frame.new ≡ told_frame event.now frame.old }
{
    match event {
        Some(Event::Sent(told)) => *frame = PlainFrame::of(told),
        Some(Event::Received(told)) => *frame = PlainFrame::of(told),
        Some(Event::Lost | Event::Error(_) | Event::Overload | Event::WentOff | Event::Recovered)
        | None => {}
    }
}

/// Passes one bit time for each of these levels: the port samples them, whatever it drives. The call writes the level
/// that the port drove in each bit time, and the number of each event. All three slices must have the same length. A
/// level that is neither 0 nor 1 is refused before the first one is sampled.
#[tactic(auto, using(crate::proofs::StatusLemmas::done_only, crate::proofs::StatusLemmas::not_done))]
#[unsafe(no_mangle)]
pub extern "C" fn can_c_run(
    alloc: Global,
    handle: &mut Handle,
    levels: &[u8],
    drives: &mut [u8],
    events: &mut [u8],
) -> u8
    ensures status { result ≡ status_code (run_status handle.old.held levels.now drives.old events.old) }
    ensures run { result ≡ done → handle.new.held ≡ option_map (λ p. port_run p (levels_of_codes levels.now)) handle.old.held }
    ensures drives { result ≡ done → IfSome handle.old.held (λ p. drives.new ≡ map level_code (drives_over p (levels_of_codes levels.now))) }
    ensures events { result ≡ done → IfSome handle.old.held (λ p. events.new ≡ map event_code (port_events p (levels_of_codes levels.now))) }
    ensures unchanged { result ≢ done → handle.new.held ≡ handle.old.held }
    ensures unwritten { result ≢ done → (drives.new ≡ drives.old) × (events.new ≡ events.old) }
{
    with_port!(alloc, handle, |port| {
        run_codes(&mut port, levels, drives, events)
    })
}

/// Has a port sample levels, and writes what it drove and the numbers of the events.
fn run_codes(port: &mut Controller, levels: &[u8], drives: &mut [u8], events: &mut [u8]) -> Status
    ensures status { result ≡ run_status (Some port.old) levels.now drives.old events.old }
    ensures run { result ≡ Status.Done → port.new ≡ port_run port.old (levels_of_codes levels.now) }
    ensures drives { result ≡ Status.Done → drives.new ≡ map level_code (drives_over port.old (levels_of_codes levels.now)) }
    ensures events { result ≡ Status.Done → events.new ≡ map event_code (port_events port.old (levels_of_codes levels.now)) }
    ensures unchanged { result ≢ Status.Done → port.new ≡ port.old }
    ensures unwritten { result ≢ Status.Done → (drives.new ≡ drives.old) × (events.new ≡ events.old) }
{
    if levels.is_empty() {
        return Status::NoLevels;
    }
    if drives.len() != levels.len() || events.len() != levels.len() {
        return Status::NoRoom;
    }
    if !Level::are_codes(levels) {
        return Status::BadLevel;
    }
    run_each(port, levels, drives, events);
    Status::Done
}

/// Passes one bit time of a port for each level.
fn run_each(port: &mut Controller, levels: &[u8], drives: &mut [u8], events: &mut [u8])
    requires drives { length drives.old ≡ length levels.now }
    requires events { length events.old ≡ length levels.now }
    ensures run { port.new ≡ port_run port.old (levels_of_codes levels.now) }
    ensures drives { drives.new ≡ map level_code (drives_over port.old (levels_of_codes levels.now)) }
    ensures events { events.new ≡ map event_code (port_events port.old (levels_of_codes levels.now)) }
{
    for place in 0..levels.len() {
        drives[place] = port.drive().code();
        events[place] = Event::code_of(&port.sample(Level::from_code(levels[place])));
    }
}
