ghost use Rattle.std.specs.Prelude.{◌≡◌, ◌≢◌, None, Some, option_map};
ghost use Rattle.can_mac.specs.State.{idle, joining};
ghost use Rattle.can_node.specs.Ports.{fresh_port, port_offered, port_holding};
ghost use Rattle.can_c.specs.Calls.{copy_refusal, hold_status, offer_status};
ghost use Rattle.can_c.specs.PlainFrames.{frame_of_plain};
ghost use Rattle.can_c.specs.Statuses.{done, status_code};

use crate::controller::Controller;
use crate::handle::{Handle, with_port};
use crate::plain::PlainFrame;
use crate::status::Status;
use std::alloc::Global;

/// Makes a port that is on the bus and idle. Its transmit queue has space for `queue` frames, its log for `log`
/// entries. The port that the handle held is freed. If there is no memory, nothing changes.
#[unsafe(no_mangle)]
pub extern "C" fn can_c_idle(alloc: Global, handle: &mut Handle, queue: usize, log: usize) -> u8
    ensures answers { result ≢ done → result ≡ status_code Status.NoMemory }
    ensures made { result ≡ done → handle.new.held ≡ Some (fresh_port idle queue log) }
    ensures unchanged { result ≢ done → handle.new.held ≡ handle.old.held }
{
    let Ok(port) = Controller::idle(alloc, queue, log) else {
        return Status::NoMemory.code();
    };
    put(alloc, handle, port)
}

/// Makes a port that begins with bus integration: it waits for eleven recessive levels in a row before it takes part.
/// Otherwise it is as that of [`can_c_idle`].
#[unsafe(no_mangle)]
pub extern "C" fn can_c_joining(alloc: Global, handle: &mut Handle, queue: usize, log: usize) -> u8
    ensures answers { result ≢ done → result ≡ status_code Status.NoMemory }
    ensures made { result ≡ done → handle.new.held ≡ Some (fresh_port joining queue log) }
    ensures unchanged { result ≢ done → handle.new.held ≡ handle.old.held }
{
    let Ok(port) = Controller::joining(alloc, queue, log) else {
        return Status::NoMemory.code();
    };
    put(alloc, handle, port)
}

/// Makes a copy of a port, with its queue and its log. The port that the handle held is freed. If there is no memory,
/// nothing changes; the original never changes.
#[unsafe(no_mangle)]
pub extern "C" fn can_c_copy(alloc: Global, handle: &mut Handle, from: &mut Handle) -> u8
    ensures answers { result ≢ done → result ≡ status_code (copy_refusal from.old.held) }
    ensures none { from.old.held ≡ None → result ≡ status_code Status.NoPort }
    ensures copied { result ≡ done → handle.new.held ≡ from.old.held }
    ensures unchanged { result ≢ done → handle.new.held ≡ handle.old.held }
    ensures kept { from.new.held ≡ from.old.held }
{
    match from.take(alloc) {
        None => Status::NoPort.code(),
        Some(port) => {
            let status = put_copy(alloc, handle, &port);
            from.put(alloc, port);
            status
        }
    }
}

/// Puts a copy of a port on the heap and into the handle, if there is memory.
fn put_copy(alloc: Global, handle: &mut Handle, port: &Controller) -> u8
    ensures answers { result ≢ done → result ≡ status_code Status.NoMemory }
    ensures made { result ≡ done → handle.new.held ≡ Some port.now }
    ensures unchanged { result ≢ done → handle.new.held ≡ handle.old.held }
{
    let Ok(copy) = port.copied(alloc) else {
        return Status::NoMemory.code();
    };
    put(alloc, handle, copy)
}

/// Puts a port on the heap and into the handle, if there is memory.
fn put(alloc: Global, handle: &mut Handle, port: Controller) -> u8
    ensures answers { result ≢ done → result ≡ status_code Status.NoMemory }
    ensures made { result ≡ done → handle.new.held ≡ Some port }
    ensures unchanged { result ≢ done → handle.new.held ≡ handle.old.held }
{
    let Ok(port) = Box::new(alloc, port) else {
        return Status::NoMemory.code();
    };
    handle.put(alloc, port);
    Status::Done.code()
}

/// Frees the port, if there is one.
#[unsafe(no_mangle)]
pub extern "C" fn can_c_free(alloc: Global, handle: &mut Handle)
    ensures { handle.new.held ≡ None }
{
    drop(handle.take(alloc));
}

/// Queues a frame for transmission, at the end of the queue. If the call is refused, the port does not change.
#[tactic(auto, using(crate::proofs::StatusLemmas::done_only, crate::proofs::StatusLemmas::not_done))]
#[unsafe(no_mangle)]
pub extern "C" fn can_c_offer(alloc: Global, handle: &mut Handle, frame: &PlainFrame) -> u8
    ensures status { result ≡ status_code (offer_status handle.old.held frame.now) }
    ensures offered { result ≡ done → handle.new.held ≡ option_map (port_offered (frame_of_plain frame.now)) handle.old.held }
    ensures unchanged { result ≢ done → handle.new.held ≡ handle.old.held }
{
    with_port!(alloc, handle, |port| offer(&mut port, frame))
}

/// Queues a frame at a port.
fn offer(port: &mut Controller, frame: &PlainFrame) -> Status
    ensures status { result ≡ offer_status (Some port.old) frame.now }
    ensures offered { result ≡ Status.Done → port.new ≡ port_offered (frame_of_plain frame.now) port.old }
    ensures unchanged { result ≢ Status.Done → port.new ≡ port.old }
{
    match frame.frame() {
        Err(why) => why,
        Ok(frame) => match port.offer(frame) {
            Ok(()) => Status::Done,
            Err(_) => Status::QueueFull,
        },
    }
}

/// Requests overload frames, 0 to 2, in place of an earlier request. If the call is refused, the port does not change.
#[unsafe(no_mangle)]
pub extern "C" fn can_c_hold(alloc: Global, handle: &mut Handle, count: u8) -> u8
    ensures status { result ≡ status_code (hold_status handle.old.held count) }
    ensures held { result ≡ done → handle.new.held ≡ option_map (port_holding count) handle.old.held }
    ensures unchanged { result ≢ done → handle.new.held ≡ handle.old.held }
{
    with_port!(alloc, handle, |port| {
        if port.hold(count) {
            Status::Done
        } else {
            Status::BadCount
        }
    })
}
