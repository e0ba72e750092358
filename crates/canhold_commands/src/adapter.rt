//! The reference between two lines of the runner, and its reply to one.
ghost use Rattle.std.specs.Prelude.{◌≡◌, ◌≢◌, ◌≤◌, ◌++◌, length, map, option_map, OnOk};
ghost use Rattle.canhold_commands.specs.Adapters.{event_line, play_answer, behind_levels, state_answer};
ghost use Rattle.canhold_commands.specs.Commands.{quit_line, tester_of as tester_by};

use crate::command::{MOST_LEVELS, digits_in, frame_in, start_in, tester_of, wish_in};
use arrayvec::ArrayVec;
use can_conform::{meet, started_node};
use can_frame::Frame;
use can_node::{PackedNode, Port};
use can_terms::{Event, Start};
use document_values::{push_number, push_text};
use kit_documents::{push_event, push_state};
use std::alloc::{AllocError, Global};

/// The reply to a line that needs a case before one has begun.
const NO_CASE: &[u8] = b"error no case\n";

/// The reply to a line that is not in the protocol.
const NO_LINE: &[u8] = b"error no line of the protocol\n";

/// The reference between two lines: its port, once a case has begun.
#[derive(Drop)]
pub(crate) struct Adapter {
    pub(crate) node: Option<PackedNode>,
}

impl Adapter {
    ghost use Rattle.can_conform.specs.Runs.{started, wished};
    ghost use Rattle.can_node.specs.Ports.{with_offer};
    ghost use Rattle.canhold_commands.specs.Adapters.{if_begun, IsAnswered};
    ghost use Rattle.std.specs.Prelude.{[], codes, None, Some};

    /// An adapter for which no case has begun.
    pub(crate) fn new() -> Adapter
        ensures { option_map ⟦<PackedNode as Port>⟧.port result.node ≡ None }
    {
        Adapter { node: None }
    }

    /// Replies to a line other than `quit`. `out` becomes the reply, which may be empty.
    pub(crate) fn answer(
        &mut self,
        alloc: Global,
        line: &[u8],
        out: &mut Vec<u8>,
    ) -> Result<(), AllocError>
        requires { line.now ≢ quit_line }
        ensures { OnOk result (IsAnswered line.now (option_map ⟦<PackedNode as Port>⟧.port self.old.node) out.new.items (option_map ⟦<PackedNode as Port>⟧.port self.new.node)) }
    {
        out.clear();
        if let Some(start) = start_in(line) {
            return self.begin(alloc, start, out);
        }
        if let Some(frame) = frame_in(line) {
            return self.offer(frame, out);
        }
        if let Some(count) = wish_in(line) {
            return self.hold(count, out);
        }
        if let Some(digits) = digits_in(line) {
            return self.play(digits, out);
        }
        if line == b"end".as_slice() {
            return self.end(out);
        }
        push_text(out, NO_LINE)
    }

    /// Begins a case with a new port.
    fn begin(&mut self, alloc: Global, start: Start, out: &mut Vec<u8>) -> Result<(), AllocError>
        ensures text { OnOk result (out.new.items ≡ out.old.items ++ codes "ready\n") }
        ensures port { OnOk result (option_map ⟦<PackedNode as Port>⟧.port self.new.node ≡ Some (started start)) }
    {
        self.node = Some(started_node(alloc, start)?);
        push_text(out, b"ready\n")
    }

    /// Queues a frame.
    fn offer(&mut self, frame: Frame, out: &mut Vec<u8>) -> Result<(), AllocError>
        ensures text { OnOk result (out.new.items ≡ out.old.items ++ if_begun (option_map ⟦<PackedNode as Port>⟧.port self.old.node) (λ port. [])) }
        ensures port { OnOk result (option_map ⟦<PackedNode as Port>⟧.port self.new.node ≡ option_map (with_offer frame) (option_map ⟦<PackedNode as Port>⟧.port self.old.node)) }
    {
        match &mut self.node {
            Some(node) => {
                let _ = node.offer(frame);
                Ok(())
            }
            None => push_text(out, NO_CASE),
        }
    }

    /// Requests overload frames.
    fn hold(&mut self, count: u8, out: &mut Vec<u8>) -> Result<(), AllocError>
        ensures text { OnOk result (out.new.items ≡ out.old.items ++ if_begun (option_map ⟦<PackedNode as Port>⟧.port self.old.node) (λ port. [])) }
        ensures port { OnOk result (option_map ⟦<PackedNode as Port>⟧.port self.new.node ≡ option_map (wished count) (option_map ⟦<PackedNode as Port>⟧.port self.old.node)) }
    {
        match &mut self.node {
            Some(node) => {
                let _ = node.hold(count);
                Ok(())
            }
            None => push_text(out, NO_CASE),
        }
    }

    /// Plays bit times.
    fn play(&mut self, digits: &[u8], out: &mut Vec<u8>) -> Result<(), AllocError>
        requires { length digits.now ≤ MOST_LEVELS }
        ensures text { OnOk result (out.new.items ≡ out.old.items ++ if_begun (option_map ⟦<PackedNode as Port>⟧.port self.old.node) (play_answer (map tester_by digits.now))) }
        ensures port { OnOk result (option_map ⟦<PackedNode as Port>⟧.port self.new.node ≡ option_map (behind_levels (map tester_by digits.now)) (option_map ⟦<PackedNode as Port>⟧.port self.old.node)) }
    {
        match &mut self.node {
            Some(node) => play(node, digits, out),
            None => push_text(out, NO_CASE),
        }
    }

    /// Writes the port's state and counters.
    fn end(&self, out: &mut Vec<u8>) -> Result<(), AllocError>
        ensures { OnOk result (out.new.items ≡ out.old.items ++ if_begun (option_map ⟦<PackedNode as Port>⟧.port self.now.node) state_answer) }
    {
        match &self.node {
            Some(node) => tell_state(node, out),
            None => push_text(out, NO_CASE),
        }
    }
}

/// Plays the bit times with these digits: writes the lines of the events, and then that of the driven levels.
fn play<P: Port>(port: &mut P, digits: &[u8], out: &mut Vec<u8>) -> Result<(), AllocError>
    requires { length digits.now ≤ MOST_LEVELS }
    ensures text { OnOk result (out.new.items ≡ out.old.items ++ play_answer (map tester_by digits.now) (P.port port.old)) }
    ensures port { OnOk result (P.port port.new ≡ behind_levels (map tester_by digits.now) (P.port port.old)) }
{
    let mut drove: ArrayVec<u8, MOST_LEVELS> = ArrayVec::new();
    for (place, tester) in digits.iter().enumerate() {
        let meeting = meet(port, tester_of(*tester));
        tell_event(place, meeting.event, out)?;
        drove.push(meeting.drove.digit());
    }
    push_text(out, b"drove ")?;
    push_text(out, &drove)?;
    push_text(out, b"\n")
}

/// Appends the line of an event, if there is one.
fn tell_event(place: usize, event: Option<Event>, out: &mut Vec<u8>) -> Result<(), AllocError>
    ensures { OnOk result (out.new.items ≡ out.old.items ++ event_line place event) }
{
    let Some(event) = event else {
        return Ok(());
    };
    push_text(out, b"event ")?;
    push_number(out, place as u64)?;
    push_text(out, b" ")?;
    push_event(out, &event)?;
    push_text(out, b"\n")
}

/// Appends the line with the state and counters of a port.
fn tell_state<P: Port>(port: &P, out: &mut Vec<u8>) -> Result<(), AllocError>
    ensures { OnOk result (out.new.items ≡ out.old.items ++ state_answer (P.port port.now)) }
{
    let (transmit, receive) = port.counters();
    push_text(out, b"state ")?;
    push_state(out, port.state())?;
    push_text(out, b" ")?;
    push_number(out, u64::from(transmit))?;
    push_text(out, b" ")?;
    push_number(out, u64::from(receive))?;
    push_text(out, b"\n")
}
