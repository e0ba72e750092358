//! The transcript of the reference.
ghost use Rattle.std.specs.Prelude.{◌≡◌, ◌<◌, ◌^◌, ◌-◌, ◌++◌, if◌then◌else◌, length, option_to_list, IfOk, None, OnOk, Some};
ghost use Rattle.can_conform.specs.Transcripts.{at_time, same_counters, IsTranscript};

use crate::bench::Bench;
use crate::meeting::ending_of;
use can_terms::{Counters, Script, Timed, Transcript};
use std::alloc::{AllocError, Global};

/// Returns what the reference does in a case. That is: the levels that it drives, its events, its counters after each
/// bit time that changed one, and its state and counters after the last bit time. It fails only if an allocation fails.
pub fn expect(alloc: Global, script: &Script) -> Result<Transcript, AllocError>
    requires { length script.now.tester.items < 2 ^ 32 - 1 }
    ensures { IfOk result (IsTranscript script.now) }
{
    let mut drove = Vec::with_capacity(alloc, script.tester.len())?;
    let mut events = Vec::new(alloc);
    let mut counters = Vec::new(alloc);
    let mut held = Counters::NONE;
    let mut bench = Bench::begin(alloc, script)?;
    for time in 0..script.tester.len() as u32 {
        let moment = bench.step(script);
        push_some(&mut drove, moment.drove)?;
        push_timed(&mut events, time, moment.event)?;
        push_timed(&mut counters, time, change(held, moment.counters))?;
        held = moment.counters;
    }
    Ok(Transcript {
        drove,
        events: Some(events),
        counters: Some(counters),
        end: Some(ending_of(&bench.node)),
    })
}

/// The new counters, if they differ from the old ones.
fn change(held: Counters, now: Counters) -> Option<Counters>
    ensures { result ≡ (if same_counters now held then None else Some now) }
{
    (now.transmit != held.transmit || now.receive != held.receive).then_some(now)
}

/// Appends an element, if there is one.
fn push_some<T: Drop>(list: &mut Vec<T>, element: Option<T>) -> Result<(), AllocError>
    ensures { OnOk result (list.new.items ≡ list.old.items ++ option_to_list element) }
{
    if let Some(element) = element {
        list.push(element)?;
    }
    Ok(())
}

/// Appends the element of this time, if there is one.
fn push_timed<T: Drop>(
    list: &mut Vec<Timed<T>>,
    time: u32,
    element: Option<T>,
) -> Result<(), AllocError>
    ensures { OnOk result (list.new.items ≡ list.old.items ++ at_time time element) }
{
    if let Some(told) = element {
        list.push(Timed { time, told })?;
    }
    Ok(())
}
