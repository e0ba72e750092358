//! The document of a scenario, and its fields at the top level, except the injected bit errors.
ghost use Rattle.std.specs.Prelude.{◌≡◌, codes, map, IfErr, IfNone, IfOk, IfSome, IsErrOf, IsTrue, OnOk, OnSome, ◌↔◌};
ghost use Rattle.toml.specs.Data.{table};
ghost use Rattle.toml.specs.View.{view, table_view};
ghost use Rattle.can_stream.specs.declared.field.Field.{Field as Wrong};
ghost use Rattle.document_values.specs.Demands.{AllMet, IsFirstUnmet};
ghost use Rattle.document_values.specs.Refusals.{IsNoDocument};
ghost use Rattle.document_values.specs.Values.{are_known, named, IsDocument, IsNumber, IsRequired};
ghost use Rattle.can_scenario_text.specs.Scenarios.{port_elements, top_demands, top_fields, version_in, version_of as version_of_document, IsFieldOrMemory, IsPortArray};

use crate::scenario::Field;
use crate::scenario::version::Version;
use can_stream::TraceFault;
use document_values::{
    DocumentFault, elements_of, field, has_only, read_document, required_number,
};
use std::alloc::Global;
use toml::{Table, Value};

/// The fields that a document of version 1 may have.
const TOP_FIELDS: [&str; 6] = ["version", "bits", "port", "at", "in", "view"];

/// The fields that a document of version 2 may have, which has no injected bit errors.
const TIMED_TOP_FIELDS: [&str; 3] = ["version", "bits", "port"];

/// The maximum number of bit times of a run.
const MOST_BITS: u64 = 1_000_000;

/// The maximum number of ports of a bus.
const MOST_PORTS: usize = 64;

/// Parses the bytes as a document.
pub(crate) fn parse(alloc: Global, text: &[u8]) -> Result<Table, TraceFault>
    ensures said { IfOk result (λ fields. IsDocument text.now (table (table_view fields))) }
    ensures unmet { (wrong : Wrong) → IsErrOf result (TraceFault.ScenarioField wrong) → IsNoDocument Field.Document wrong text.now }
    ensures other { IfErr result IsFieldOrMemory }
{
    match read_document(alloc, text) {
        Ok(document) => Ok(document),
        Err(DocumentFault::Memory) => Err(TraceFault::Memory),
        Err(DocumentFault::NoDocument) => Err(TraceFault::ScenarioField(Field::Document)),
    }
}

/// The fields at the top level.
#[derive(Clone, Copy)]
pub(crate) struct Top<'a> {
    /// The version according to which the document is read.
    pub(crate) version: Version,
    /// The number of bit times of the run.
    pub(crate) bits: u32,
    /// The values in the list of ports.
    pub(crate) ports: &'a [Value],
}

/// Reads the fields at the top level.
pub(crate) fn read_top(document: &Table) -> Result<Top<'_>, TraceFault>
    ensures version { IfOk result (λ top. top.version ≡ version_of_document (table (table_view document.now))) }
    ensures bits { IfOk result (λ top. IsRequired (IsNumber top.bits) (named (codes "bits") (table (table_view document.now)))) }
    ensures ports { IfOk result (λ top. map view top.ports.now ≡ port_elements (table (table_view document.now))) }
    ensures met { OnOk result (AllMet (top_demands (table (table_view document.now)))) }
    ensures unmet { (wrong : Wrong) → IsErrOf result (TraceFault.ScenarioField wrong) → IsFirstUnmet wrong (top_demands (table (table_view document.now))) }
    ensures other { IfErr result IsFieldOrMemory }
{
    let said = version_said(document);
    let version = said.unwrap_or(Version::One);
    if !knows_all_fields(version, document) {
        return Err(TraceFault::ScenarioField(Field::Unknown));
    }
    if said.is_none() {
        return Err(TraceFault::ScenarioField(Field::Version));
    }
    let bits = required_number(document, "bits", MOST_BITS).ok_or(TraceFault::ScenarioField(
        Field::Bits,
    ))?;
    let ports = port_values(document).ok_or(TraceFault::ScenarioField(Field::Ports))?;
    Ok(Top {
        version,
        bits: bits as u32,
        ports,
    })
}

/// The version that the document states, if it is 1 or 2.
fn version_said(document: &Table) -> Option<Version>
    ensures { result ≡ version_in (table (table_view document.now)) }
{
    match field(document, "version")? {
        Value::Integer(1) => Some(Version::One),
        Value::Integer(2) => Some(Version::Two),
        _ => None,
    }
}

/// Whether the document has only fields that are allowed in this version.
fn knows_all_fields(version: Version, document: &Table) -> bool
    ensures { result ≡ are_known (top_fields version) (table_view document.now) }
{
    match version {
        Version::One => has_only(document, &TOP_FIELDS),
        Version::Two => has_only(document, &TIMED_TOP_FIELDS),
    }
}

/// The values in the list of ports, 1 to 64.
fn port_values(document: &Table) -> Option<&[Value]>
    ensures said { IfSome result (λ values. map view values.now ≡ port_elements (table (table_view document.now))) }
    ensures met { OnSome result (IsRequired IsPortArray (named (codes "port") (table (table_view document.now)))) }
    ensures unmet { IfNone result (¬ IsRequired IsPortArray (named (codes "port") (table (table_view document.now)))) }
{
    let values = elements_of(field(document, "port")?)?;
    (!values.is_empty() && values.len() <= MOST_PORTS).then_some(values)
}
