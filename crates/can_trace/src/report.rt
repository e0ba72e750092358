//! The report of a run, written line by line.
ghost use Rattle.std.specs.Prelude.{◌≡◌, ◌≤◌, false, [], length, map, is_err, IfErr, OnOk, OnErr};
ghost use Rattle.std.specs.Io.KnownBytes.{Appends};
ghost use Rattle.std.specs.List.{flat_map};
ghost use Rattle.can_frame.specs.Levels.{digit_of};
ghost use Rattle.can_stream.specs.Outbox.{Puts, TakesFront};
ghost use Rattle.can_trace.specs.Report.{bits_line, entry_line, levels_line, mark_word, port_line, port_lines, ports_lines, report_text, reported};

use arrayvec::ArrayVec;
use can_frame::Level;
use can_node::{Entry, Port};
use can_stream::line::{Line, push, push_named};
use can_stream::{Outbox, Sink, TraceFault, write_digits};

/// The number of levels that are written at once.
const PIECE: usize = 1024;

/// Writes the report of a run: the number of recorded levels, the levels, and the state and log of each
/// port.
pub(crate) fn write_report<P: Port, W: Sink>(
    levels: &[Level],
    ports: &[P],
    w: &mut W,
) -> Result<(), TraceFault>
    requires { W.has_failed w.old ≡ false }
    ensures ok { OnOk result (Appends (W.contents w.old) (W.contents w.new) (report_text levels.now (map reported (map P.port ports.now)))) }
    ensures err { OnErr result (TakesFront (W.contents w.old) (W.contents w.new) (report_text levels.now (map reported (map P.port ports.now)))) }
    ensures failed { W.has_failed w.new ≡ is_err result }
    ensures fault { IfErr result (λ e. e ≡ TraceFault.Write) }
{
    let mut out = Outbox::new();
    put_report(levels, ports, w, &mut out)?;
    out.flush(w)
}

/// Appends the whole report.
fn put_report<P: Port, W: Sink>(
    levels: &[Level],
    ports: &[P],
    w: &mut W,
    out: &mut Outbox,
) -> Result<(), TraceFault>
    requires { W.has_failed w.old ≡ false }
    ensures puts { Puts result (W.contents w.old) (W.contents w.new) out.old out.new (report_text levels.now (map reported (map P.port ports.now))) }
    ensures failed { W.has_failed w.new ≡ is_err result }
    ensures fault { IfErr result (λ e. e ≡ TraceFault.Write) }
{
    out.put(w, &written_bits(levels.len()))?;
    put_levels(levels, w, out)?;
    put_ports(ports, w, out)
}

/// Appends the levels as digits, in one line.
fn put_levels<W: Sink>(levels: &[Level], w: &mut W, out: &mut Outbox) -> Result<(), TraceFault>
    requires { W.has_failed w.old ≡ false }
    ensures puts { Puts result (W.contents w.old) (W.contents w.new) out.old out.new (levels_line levels.now) }
    ensures failed { W.has_failed w.new ≡ is_err result }
    ensures fault { IfErr result (λ e. e ≡ TraceFault.Write) }
{
    let mut ahead = levels;
    while !ahead.is_empty() {
        let (piece, rest) = ahead.split_at(ahead.len().min(PIECE));
        put_digits(piece, w, out)?;
        ahead = rest;
    }
    out.put(w, b"\n")
}

/// Appends the digits of at most `PIECE` levels.
fn put_digits<W: Sink>(levels: &[Level], w: &mut W, out: &mut Outbox) -> Result<(), TraceFault>
    requires few { length levels.now ≤ PIECE }
    requires unfailed { W.has_failed w.old ≡ false }
    ensures puts { Puts result (W.contents w.old) (W.contents w.new) out.old out.new (map digit_of levels.now) }
    ensures failed { W.has_failed w.new ≡ is_err result }
    ensures fault { IfErr result (λ e. e ≡ TraceFault.Write) }
{
    let mut digits = [0; PIECE];
    let count = levels.len();
    write_digits(levels, &mut digits[..count]);
    out.put(w, &digits[..count])
}

/// Appends the lines of all ports.
fn put_ports<P: Port, W: Sink>(ports: &[P], w: &mut W, out: &mut Outbox) -> Result<(), TraceFault>
    requires { W.has_failed w.old ≡ false }
    ensures puts { Puts result (W.contents w.old) (W.contents w.new) out.old out.new (ports_lines 0 (map reported (map P.port ports.now))) }
    ensures failed { W.has_failed w.new ≡ is_err result }
    ensures fault { IfErr result (λ e. e ≡ TraceFault.Write) }
{
    for (number, port) in ports.iter().enumerate() {
        put_port(number, port, w, out)?;
    }
    Ok(())
}

/// Appends the lines of a port: its own, and one for each entry of its log.
fn put_port<P: Port, W: Sink>(
    number: usize,
    port: &P,
    w: &mut W,
    out: &mut Outbox,
) -> Result<(), TraceFault>
    requires { W.has_failed w.old ≡ false }
    ensures puts { Puts result (W.contents w.old) (W.contents w.new) out.old out.new (port_lines number (reported (P.port port.now))) }
    ensures failed { W.has_failed w.new ≡ is_err result }
    ensures fault { IfErr result (λ e. e ≡ TraceFault.Write) }
{
    out.put(w, &written_port(number, port))?;
    put_entries(port.log(), w, out)
}

/// Appends the lines of entries.
fn put_entries<W: Sink>(entries: &[Entry], w: &mut W, out: &mut Outbox) -> Result<(), TraceFault>
    requires { W.has_failed w.old ≡ false }
    ensures puts { Puts result (W.contents w.old) (W.contents w.new) out.old out.new (flat_map entry_line entries.now) }
    ensures failed { W.has_failed w.new ≡ is_err result }
    ensures fault { IfErr result (λ e. e ≡ TraceFault.Write) }
{
    for entry in entries {
        out.put(w, &written_entry(entry))?;
    }
    Ok(())
}

/// The line with the number of levels.
fn written_bits(bits: usize) -> Line
    ensures { result.items ≡ bits_line bits }
{
    let mut line = ArrayVec::new();
    push_named(&mut line, b"bits ", bits as u64);
    push(&mut line, b"\n");
    line
}

/// A port's own line.
fn written_port<P: Port>(number: usize, port: &P) -> Line
    ensures { result.items ≡ port_line number (reported (P.port port.now)) }
{
    let (transmit, receive) = port.counters();
    let mut line = ArrayVec::new();
    push_named(&mut line, b"port ", number as u64);
    push(&mut line, b" ");
    push(&mut line, port.state().word().as_bytes());
    push_named(&mut line, b" tec ", u64::from(transmit));
    push_named(&mut line, b" rec ", u64::from(receive));
    push_named(&mut line, b" missed ", u64::from(port.missed()));
    push(&mut line, b"\n");
    line
}

/// The line of an entry.
fn written_entry(entry: &Entry) -> Line
    ensures { result.items ≡ entry_line entry.now }
{
    let mut line = ArrayVec::new();
    push(&mut line, b"  ");
    push(&mut line, mark(entry.sent));
    entry.frame.push_text(&mut line);
    push(&mut line, b"\n");
    line
}

/// The word for a frame that was transmitted, or received.
fn mark(sent: bool) -> &'static [u8]
    ensures word { result.now ≡ mark_word sent }
    ensures length { length result.now ≡ 5 }
{
    if sent { b"sent " } else { b"took " }
}
