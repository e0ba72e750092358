ghost use Rattle.std.specs.Prelude.{◌≡◌, ◌≢◌, IfSome, Some, length, slice_get};
ghost use Rattle.can_fault.specs.Counters.{state_of};
ghost use Rattle.can_c.specs.Calls.{entry_status, port_status};
ghost use Rattle.std.specs.Int.{from_bool};
ghost use Rattle.can_c.specs.Codes.{state_code as state_code_of};
ghost use Rattle.can_c.specs.PlainFrames.{plain_frame};
ghost use Rattle.can_c.specs.Statuses.{done, status_code};

use crate::codes::state_code;
use crate::controller::Controller;
use crate::handle::{Handle, with_port};
use crate::plain::PlainFrame;
use crate::status::Status;
use std::alloc::Global;

/// Writes the transmit and the receive error counter.
#[unsafe(no_mangle)]
pub extern "C" fn can_c_counters(
    alloc: Global,
    handle: &mut Handle,
    transmit: &mut u16,
    receive: &mut u16,
) -> u8
    ensures status { result ≡ status_code (port_status handle.old.held) }
    ensures transmit { IfSome handle.old.held (λ p. transmit.new ≡ p.mac.counters.tec) }
    ensures receive { IfSome handle.old.held (λ p. receive.new ≡ p.mac.counters.rec) }
    ensures unchanged { handle.new.held ≡ handle.old.held }
    ensures unwritten { result ≢ done → (transmit.new ≡ transmit.old) × (receive.new ≡ receive.old) }
{
    with_port!(alloc, handle, |port| {
        let (tec, rec) = port.counters();
        *transmit = tec;
        *receive = rec;
        Status::Done
    })
}

/// Writes the number of the state of fault confinement.
#[unsafe(no_mangle)]
pub extern "C" fn can_c_state(alloc: Global, handle: &mut Handle, state: &mut u8) -> u8
    ensures status { result ≡ status_code (port_status handle.old.held) }
    ensures state { IfSome handle.old.held (λ p. state.new ≡ state_code_of (state_of p.mac.counters)) }
    ensures unchanged { handle.new.held ≡ handle.old.held }
    ensures unwritten { result ≢ done → state.new ≡ state.old }
{
    with_port!(alloc, handle, |port| {
        *state = state_code(port.state());
        Status::Done
    })
}

/// Writes the number of entries in the log.
#[unsafe(no_mangle)]
pub extern "C" fn can_c_log_length(alloc: Global, handle: &mut Handle, count: &mut usize) -> u8
    ensures status { result ≡ status_code (port_status handle.old.held) }
    ensures count { IfSome handle.old.held (λ p. count.new ≡ length p.log) }
    ensures unchanged { handle.new.held ≡ handle.old.held }
    ensures unwritten { result ≢ done → count.new ≡ count.old }
{
    with_port!(alloc, handle, |port| {
        *count = port.log().len();
        Status::Done
    })
}

/// Writes the number of entries for which the log had no capacity.
#[unsafe(no_mangle)]
pub extern "C" fn can_c_missed(alloc: Global, handle: &mut Handle, count: &mut u32) -> u8
    ensures status { result ≡ status_code (port_status handle.old.held) }
    ensures count { IfSome handle.old.held (λ p. count.new ≡ p.missed) }
    ensures unchanged { handle.new.held ≡ handle.old.held }
    ensures unwritten { result ≢ done → count.new ≡ count.old }
{
    with_port!(alloc, handle, |port| {
        *count = port.missed();
        Status::Done
    })
}

/// Writes the entry of the log with this number; the oldest is 0. It consists of a frame, and of 1 if the port sent it,
/// 0 if it received it.
#[tactic(auto, using(crate::proofs::StatusLemmas::done_only, crate::proofs::StatusLemmas::not_done))]
#[unsafe(no_mangle)]
pub extern "C" fn can_c_entry(
    alloc: Global,
    handle: &mut Handle,
    number: usize,
    frame: &mut PlainFrame,
    sent: &mut u8,
) -> u8
    ensures status { result ≡ status_code (entry_status handle.old.held number) }
    ensures frame { IfSome handle.old.held (λ p. IfSome (slice_get p.log number) (λ entry. frame.new ≡ plain_frame entry.frame)) }
    ensures sent { IfSome handle.old.held (λ p. IfSome (slice_get p.log number) (λ entry. sent.new ≡ from_bool entry.sent)) }
    ensures unchanged { handle.new.held ≡ handle.old.held }
    ensures unwritten { result ≢ done → (frame.new ≡ frame.old) × (sent.new ≡ sent.old) }
{
    with_port!(alloc, handle, |port| entry(&port, number, frame, sent))
}

/// Writes an entry of a port's log.
fn entry(port: &Controller, number: usize, frame: &mut PlainFrame, sent: &mut u8) -> Status
    ensures status { result ≡ entry_status (Some port.now) number }
    ensures frame { IfSome (slice_get port.now.log number) (λ entry. frame.new ≡ plain_frame entry.frame) }
    ensures sent { IfSome (slice_get port.now.log number) (λ entry. sent.new ≡ from_bool entry.sent) }
    ensures unwritten { result ≢ Status.Done → (frame.new ≡ frame.old) × (sent.new ≡ sent.old) }
{
    match port.log().get(number) {
        None => Status::NoEntry,
        Some(entry) => {
            *frame = PlainFrame::of(&entry.frame);
            *sent = u8::from(entry.sent);
            Status::Done
        }
    }
}
