//! The injected bit errors of a scenario's document.
ghost use Rattle.std.specs.Prelude.{◌≡◌, ◌↔◌, ℕ, Option, Some, map, option_map, IfErr, IfOk, IfSome, IsErrOf, IsNone, IsTrue, MatchOption, OnOk};
ghost use Rattle.can_terms.specs.Hits.{AreTaken, hit_names_port as names_port_of};
ghost use Rattle.toml.specs.Data.{table};
ghost use Rattle.toml.specs.View.{view, table_view};
ghost use Rattle.document_values.specs.Demands.{AllMet, IsFirstUnmet};
ghost use Rattle.document_values.specs.Values.{elements_in, named, IsNumber};
ghost use Rattle.can_scenario_text.specs.Scenarios.{hit_in as hit_said, hit_demands, hits_demands, list_demands, list_name, AddsHits, IsAboveBefore, IsFieldOrMemory, IsPair, IsSoundHit, SaysHits};
ghost use Rattle.can_stream.specs.declared.field.Field.{Field as Wrong};

use crate::scenario::{Field, HitList};
use can_stream::TraceFault;
use can_terms::Hit;
use document_values::{field, two_of, whole_number};
use std::alloc::Global;
use toml::{Table, Value};

/// All injected bit errors of the document, in order, for a bus with this number of ports.
pub(crate) fn read_hits(
    alloc: Global,
    document: &Table,
    ports: usize,
) -> Result<Vec<Hit>, TraceFault>
    ensures said { IfOk result (λ hits. SaysHits (table (table_view document.now)) hits.items) }
    ensures taken { IfOk result (λ hits. AreTaken ports hits.items) }
    ensures met { OnOk result (AllMet (hits_demands ports (table (table_view document.now)))) }
    ensures unmet { (wrong : Wrong) → IsErrOf result (TraceFault.ScenarioField wrong) → IsFirstUnmet wrong (hits_demands ports (table (table_view document.now))) }
    ensures other { IfErr result IsFieldOrMemory }
{
    let mut hits = Vec::new(alloc);
    read_list(HitList::At, document, ports, &mut hits)?;
    read_list(HitList::In, document, ports, &mut hits)?;
    read_list(HitList::View, document, ports, &mut hits)?;
    Ok(hits)
}

/// Reads one list of the document, and appends it to the hits that were read before.
fn read_list(
    list: HitList,
    document: &Table,
    ports: usize,
    hits: &mut Vec<Hit>,
) -> Result<(), TraceFault>
    ensures said { OnOk result (AddsHits list (elements_in (named (list_name list) (table (table_view document.now)))) hits.old.items hits.new.items) }
    ensures met { OnOk result (AllMet (list_demands list ports (table (table_view document.now)))) }
    ensures unmet { (wrong : Wrong) → IsErrOf result (TraceFault.ScenarioField wrong) → IsFirstUnmet wrong (list_demands list ports (table (table_view document.now))) }
    ensures other { IfErr result IsFieldOrMemory }
{
    let Some(value) = field(document, name_of(list)) else {
        return Ok(());
    };
    let Some(values) = value.as_array() else {
        return Err(TraceFault::ScenarioField(Field::Hits(list)));
    };
    read_elements(list, values, ports, hits)
}

/// The name of the list's field.
fn name_of(list: HitList) -> &'static str
    ensures { result.now ≡ list_name list }
{
    match list {
        HitList::At => "at",
        HitList::In => "in",
        HitList::View => "view",
    }
}

/// Reads the elements of a list, and appends them to the hits that were read before.
fn read_elements(
    list: HitList,
    values: &[Value],
    ports: usize,
    hits: &mut Vec<Hit>,
) -> Result<(), TraceFault>
    ensures said { OnOk result (AddsHits list (map view values.now) hits.old.items hits.new.items) }
    ensures met { OnOk result (AllMet (hit_demands list ports 0 Option.None (map view values.now))) }
    ensures unmet { (wrong : Wrong) → IsErrOf result (TraceFault.ScenarioField wrong) → IsFirstUnmet wrong (hit_demands list ports 0 Option.None (map view values.now)) }
    ensures other { IfErr result IsFieldOrMemory }
{
    let mut before = None;
    for (place, value) in values.iter().enumerate() {
        let Some(hit) = sound_hit(list, value, ports, before) else {
            return Err(TraceFault::ScenarioField(Field::Hit { list, place }));
        };
        if hits.push(hit).is_err() {
            return Err(TraceFault::Memory);
        }
        before = Some(hit);
    }
    Ok(())
}

/// The hit that an element describes, if it names an existing port and is greater than the one
/// before it.
fn sound_hit(list: HitList, value: &Value, ports: usize, before: Option<Hit>) -> Option<Hit>
    ensures said { IfSome result (λ hit. hit_said list (view value.now) ≡ Some hit) }
    ensures sound { IfSome result (λ hit. IsSoundHit ports before (Some hit)) }
    ensures unsound { IsNone result → ¬ IsSoundHit ports before (hit_said list (view value.now)) }
{
    let hit = hit_in(list, value)?;
    (names_port(ports, hit) && is_above_before(before, hit)).then_some(hit)
}

/// Whether the port that the hit names, if any, is one of this number of ports.
fn names_port(ports: usize, hit: Hit) -> bool
    ensures { result ≡ names_port_of ports hit }
{
    match hit {
        Hit::At(_) | Hit::In { .. } => true,
        Hit::View { node, .. } => node < ports,
    }
}

/// Whether the hit is greater than the one before it, if there is one.
fn is_above_before(before: Option<Hit>, hit: Hit) -> bool
    ensures { IsTrue result ↔ IsAboveBefore before hit }
{
    match before {
        None => true,
        Some(before) => before < hit,
    }
}

/// The hit that an element of the list describes, if it describes one.
fn hit_in(list: HitList, value: &Value) -> Option<Hit>
    ensures { result ≡ hit_said list (view value.now) }
{
    match list {
        HitList::At => Some(Hit::At(whole_number(value)?)),
        HitList::In => {
            let (attempt, offset) = pair_in(value)?;
            Some(Hit::In { attempt, offset })
        }
        HitList::View => {
            let (time, node) = pair_in(value)?;
            Some(Hit::View {
                time,
                node: node as usize,
            })
        }
    }
}

/// The two numbers of an array of two.
fn pair_in(value: &Value) -> Option<(u64, u64)>
    ensures { MatchOption result ((a b : ℕ) → ¬ IsPair a b (view value.now)) (λ pair. IsPair pair.0 pair.1 (view value.now)) }
{
    let (first, second) = two_of(value)?;
    Some((whole_number(first)?, whole_number(second)?))
}
