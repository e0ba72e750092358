//! Events, counters and the end of a transcript.
ghost use Rattle.std.specs.Prelude.{MatchOption};
ghost use Rattle.toml.specs.View.{view};
ghost use Rattle.can_terms.specs.declared.transcript.Counters.{Counters as CountersSaid};
ghost use Rattle.can_terms.specs.declared.transcript.Ending.{Ending as EndingSaid};
ghost use Rattle.kit_documents.specs.Elements.{SayCounters, SaysChange, SaysEnd, SaysEventAt};

use crate::elements::Element;
use crate::tables::text_of;
use crate::transcripts::lists::TranscriptList;
use crate::words::events::{read_event, read_state};
use can_terms::{Counters, Ending, Event, Timed};
use document_values::{number, three_of, two_of, whole_number};
use toml::Value;

/// A transcript has no higher count than this.
const MOST_COUNTS: u64 = 65_535;

impl Element<TranscriptList> for Timed<Event> {
    ghost says = { SaysEventAt };

    fn in_value(value: &Value, time: u32) -> Option<Timed<Event>> {
        let (first, text) = two_of(value)?;
        let _time = whole_number(first)?;
        let told = read_event(text_of(text)?)?;
        Some(Timed { time, told })
    }
}

impl Element<TranscriptList> for Timed<Counters> {
    ghost says = { SaysChange };

    fn in_value(value: &Value, time: u32) -> Option<Timed<Counters>> {
        let (first, transmit, receive) = three_of(value)?;
        let _time = whole_number(first)?;
        let told = counters_in(transmit, receive)?;
        Some(Timed { time, told })
    }
}

/// The counters TEC and REC, in this order.
fn counters_in(transmit: &Value, receive: &Value) -> Option<Counters>
    ensures { MatchOption result ((counters : CountersSaid) → ¬ SayCounters (view transmit.now) (view receive.now) counters) (SayCounters (view transmit.now) (view receive.now)) }
{
    let transmit = number(transmit, MOST_COUNTS)? as u16;
    let receive = number(receive, MOST_COUNTS)? as u16;
    Some(Counters { transmit, receive })
}

/// The end that a value describes.
pub(crate) fn end_in(value: &Value) -> Option<Ending>
    ensures { MatchOption result ((end : EndingSaid) → ¬ SaysEnd (view value.now) end) (SaysEnd (view value.now)) }
{
    let (word, transmit, receive) = three_of(value)?;
    let state = read_state(text_of(word)?)?;
    let counters = counters_in(transmit, receive)?;
    Some(Ending { state, counters })
}
