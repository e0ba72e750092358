//! The state of the reference: words for phases, roles and rules.
ghost use Rattle.std.specs.Prelude.{◌≡◌, ◌++◌, OnOk};
ghost use Rattle.canhold_commands.specs.Standings.{phase_text, role_word as word_of_role, rule_name as name_of_rule, since_text, standing_text};

use can_conform::{Rule, Standing};
use can_terms::{Event, PhaseKind, Timed};
use document_values::{push_number, push_text};
use kit_documents::push_event;
use std::alloc::AllocError;

/// Appends phase, role, rule and last event.
pub(crate) fn push_standing(out: &mut Vec<u8>, standing: &Standing) -> Result<(), AllocError>
    ensures { OnOk result (out.new.items ≡ out.old.items ++ standing_text standing.now) }
{
    push_phase(out, standing.phase, standing.place)?;
    push_text(out, b", ")?;
    push_text(out, role_word(standing.is_sender))?;
    push_text(out, b"; ")?;
    push_text(out, rule_name(standing.rule))?;
    push_since(out, &standing.since)
}

/// Appends the last event with its time, if there was one.
fn push_since(out: &mut Vec<u8>, since: &Option<Timed<Event>>) -> Result<(), AllocError>
    ensures { OnOk result (out.new.items ≡ out.old.items ++ since_text since.now) }
{
    let Some(last) = since else {
        return Ok(());
    };
    push_text(out, b"; since ")?;
    push_event(out, &last.told)?;
    push_text(out, b" at ")?;
    push_number(out, u64::from(last.time))
}

/// Appends a phase, and how far it has got, if it has a place.
fn push_phase(out: &mut Vec<u8>, phase: PhaseKind, place: u8) -> Result<(), AllocError>
    ensures { OnOk result (out.new.items ≡ out.old.items ++ phase_text phase place) }
{
    push_text(out, phase.word().as_bytes())?;
    if phase.has_place() {
        push_text(out, b" ")?;
        push_number(out, u64::from(place))?;
    }
    Ok(())
}

/// The word for a role.
fn role_word(is_sender: bool) -> &'static [u8]
    ensures { result.now ≡ word_of_role is_sender }
{
    if is_sender { b"sender" } else { b"receiver" }
}

/// A rule as docs/ACCESS.md names it.
fn rule_name(rule: Rule) -> &'static [u8]
    ensures { result.now ≡ name_of_rule rule }
{
    match rule {
        Rule::Joining => b"Joining",
        Rule::StartOfFrame => b"Start of frame",
        Rule::KeptFrame => b"Kept frame",
        Rule::Intermission => b"Intermission",
        Rule::SuspendTransmission => b"Suspend transmission",
        Rule::BusOff => b"Bus off",
        Rule::Arbitration => b"Arbitration",
        Rule::StuffPlaces => b"Stuff places",
        Rule::FixedForm => b"Fixed form",
        Rule::Acknowledgement => b"Acknowledgement",
        Rule::RefusedCrcSequence => b"Refused CRC sequence",
        Rule::DominantLastLevel => b"Dominant last level",
        Rule::ErrorFlags => b"Error flags",
        Rule::ErrorInAnOwnFlag => b"Error in an own flag",
        Rule::AfterAFlag => b"After a flag",
        Rule::Delimiter => b"Delimiter",
        Rule::OverloadFlags => b"Overload flags",
        Rule::OwnOverloadFrames => b"Own overload frames",
    }
}
