//! The output lines for verdicts and their total.
ghost use Rattle.std.specs.Prelude.{◌≡◌, ◌<◌, false, [], is_err, IfErr, OnOk, OnErr};
ghost use Rattle.can_stream.specs.Outbox.{PassesOn, TakesFront};
ghost use Rattle.can_texts.specs.Checked.{total_line, vector_verdict_line};

use crate::lines::vector::Verdict;
use arrayvec::ArrayVec;
use can_stream::line::{Line, push, push_number};
use can_stream::{Outbox, Sink, TraceFault};

/// Appends the line of a verdict.
pub(crate) fn put_verdict<W: Sink>(
    verdict: Verdict,
    w: &mut W,
    out: &mut Outbox,
) -> Result<(), TraceFault>
    requires { W.has_failed w.old ≡ false }
    ensures ok { OnOk result (PassesOn (W.contents w.old) (W.contents w.new) out.old out.new (vector_verdict_line verdict)) }
    ensures err { OnErr result (TakesFront (W.contents w.old) (W.contents w.new) out.old) }
    ensures dropped { OnErr result (out.new ≡ []) }
    ensures failed { W.has_failed w.new ≡ is_err result }
    ensures fault { IfErr result (λ e. e ≡ TraceFault.Write) }
{
    out.put(w, &written_verdict(verdict))
}

/// The line of a verdict.
fn written_verdict(verdict: Verdict) -> Line
    ensures { result.items ≡ vector_verdict_line verdict }
{
    let mut line = ArrayVec::new();
    match verdict {
        Verdict::Agrees => push(&mut line, b"ok"),
        Verdict::DiffersAt(place) => {
            push(&mut line, b"differs at ");
            push_number(&mut line, place as u64);
        }
    }
    push(&mut line, b"\n");
    line
}

/// Appends the line with the number of lines that passed, and of all.
pub(crate) fn put_total<W: Sink>(
    passed: u64,
    count: u64,
    w: &mut W,
    out: &mut Outbox,
) -> Result<(), TraceFault>
    requires { W.has_failed w.old ≡ false }
    ensures ok { OnOk result (PassesOn (W.contents w.old) (W.contents w.new) out.old out.new (total_line passed count)) }
    ensures err { OnErr result (TakesFront (W.contents w.old) (W.contents w.new) out.old) }
    ensures dropped { OnErr result (out.new ≡ []) }
    ensures failed { W.has_failed w.new ≡ is_err result }
    ensures fault { IfErr result (λ e. e ≡ TraceFault.Write) }
{
    out.put(w, &written_total(passed, count))
}

/// The line with the number of lines that passed, and of all.
fn written_total(passed: u64, count: u64) -> Line
    ensures { result.items ≡ total_line passed count }
{
    let mut line = ArrayVec::new();
    push(&mut line, b"passed ");
    push_number(&mut line, passed);
    push(&mut line, b" of ");
    push_number(&mut line, count);
    push(&mut line, b"\n");
    line
}
