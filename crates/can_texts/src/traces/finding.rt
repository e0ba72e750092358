//! A frame or fault in a trace, and its output line.
ghost use Rattle.std.specs.Prelude.{◌≡◌, ◌+◌, ◌≤◌, ◌++◌, false, [], length, is_err, IfErr, OnOk, OnErr};
ghost use Rattle.can_stream.specs.Outbox.{PassesOn, TakesFront};
ghost use Rattle.can_texts.specs.Decoded.{acknowledgement, code_of, deviations, finding_line, word_if};

use arrayvec::ArrayVec;
use can_code::{CodeFaultKind, Heard};
use can_stream::line::{LINE, Line, push, push_number};
use can_stream::{Outbox, Sink, TraceFault};

/// A frame or fault that begins at a place in a trace.
#[derive(Clone, Copy)]
pub(crate) enum Finding {
    /// A frame begins at this place.
    Frame {
        place: u64,
        heard: Heard,
    },
    /// No frame begins at this dominant level. The fault shows at the other place.
    Fault {
        place: u64,
        kind: CodeFaultKind,
        fault_place: u64,
    },
}

/// Appends the line of a finding. It is inlined, so that the finding is never laid out in memory.
#[inline(always)]
pub(crate) fn put_finding<W: Sink>(
    finding: &Finding,
    w: &mut W,
    out: &mut Outbox,
) -> Result<(), TraceFault>
    requires { W.has_failed w.old ≡ false }
    ensures ok { OnOk result (PassesOn (W.contents w.old) (W.contents w.new) out.old out.new (finding_line finding.now)) }
    ensures err { OnErr result (TakesFront (W.contents w.old) (W.contents w.new) out.old) }
    ensures dropped { OnErr result (out.new ≡ []) }
    ensures failed { W.has_failed w.new ≡ is_err result }
    ensures fault { IfErr result (λ e. e ≡ TraceFault.Write) }
{
    let mut line = ArrayVec::new();
    match finding {
        Finding::Frame { place, heard } => push_frame_line(&mut line, *place, heard),
        Finding::Fault {
            place,
            kind,
            fault_place,
        } => push_fault_line(&mut line, *place, *kind, *fault_place),
    }
    out.put(w, &line)
}

/// Builds the line of a frame that begins at this place. It is inlined for the same reason.
#[inline(always)]
fn push_frame_line(line: &mut Line, place: u64, heard: &Heard)
    requires { line.old.items ≡ [] }
    ensures { line.new.items ≡ finding_line (Finding.Frame place heard.now) }
{
    push_number(line, place);
    push(line, b" ");
    heard.frame().push_text(line);
    push_acknowledgement(line, heard.acked());
    push_deviations(line, heard);
    push(line, b"\n");
}

/// Appends whether a receiver has acknowledged the frame.
#[inline(always)]
fn push_acknowledgement(line: &mut Line, acked: bool)
    requires { length line.old.items + 6 ≤ LINE }
    ensures text { line.new.items ≡ line.old.items ++ acknowledgement acked }
    ensures bound { length line.new.items ≤ length line.old.items + 6 }
{
    if acked {
        push(line, b" ack");
    } else {
        push(line, b" noack");
    }
}

/// Appends which levels were received with another value than they are sent with.
#[inline(always)]
fn push_deviations(line: &mut Line, heard: &Heard)
    requires { length line.old.items + 16 ≤ LINE }
    ensures text { line.new.items ≡ line.old.items ++ deviations heard.now }
    ensures bound { length line.new.items ≤ length line.old.items + 16 }
{
    push_if(line, !heard.srr().is_recessive(), b" srr0");
    push_if(line, heard.r1().is_recessive(), b" r1");
    push_if(line, heard.r0().is_recessive(), b" r0");
    push_if(line, !heard.last().is_recessive(), b" eof0");
}

/// Appends a word if `holds` is true.
fn push_if(line: &mut Line, holds: bool, word: &[u8])
    requires { length line.old.items + length word.now ≤ LINE }
    ensures text { line.new.items ≡ line.old.items ++ word_if holds word.now }
    ensures bound { length line.new.items ≤ length line.old.items + length word.now }
{
    if holds {
        push(line, word);
    }
}

/// Builds the line of a fault of the levels that begin at this place.
fn push_fault_line(line: &mut Line, place: u64, kind: CodeFaultKind, fault_place: u64)
    requires { line.old.items ≡ [] }
    ensures { line.new.items ≡ finding_line (Finding.Fault place kind fault_place) }
{
    push_number(line, place);
    push(line, b" fault ");
    push(line, &code(kind));
    push(line, b" at ");
    push_number(line, fault_place);
    push(line, b"\n");
}

/// The code of a kind of fault.
fn code(kind: CodeFaultKind) -> [u8; 2]
    ensures { result ≡ code_of kind }
{
    match kind {
        CodeFaultKind::Short => *b"C1",
        CodeFaultKind::NoStartOfFrame => *b"C2",
        CodeFaultKind::Stuff => *b"C3",
        CodeFaultKind::Crc => *b"C4",
        CodeFaultKind::Form => *b"C5",
    }
}
