//! The ports of a scenario.
ghost use Rattle.std.specs.Prelude.{◌≡◌, codes, map, IfErr, IfOk, IsErrOf, OnOk};
ghost use Rattle.toml.specs.Data.{table};
ghost use Rattle.toml.specs.View.{view, table_view};
ghost use Rattle.can_stream.specs.declared.field.Field.{Field as Wrong};
ghost use Rattle.document_values.specs.Demands.{demands_on_each, AllMet, IsFirstUnmet};
ghost use Rattle.document_values.specs.Values.{elements_in, named, ArePaired, SaysNumber, SaysWhether};
ghost use Rattle.can_scenario_text.specs.Scenarios.{frame_demands, port_demands, ports_demands, queue_demands, room_demands, usual_log_room, IsFieldOrMemory, SaysPort, SaysQueueElement};

use crate::scenario::values::queued;
use crate::scenario::version::Version;
use crate::scenario::{Field, PortField, PortPlan, TimedFrame};
use can_stream::TraceFault;
use document_values::{elements_or_none, fields_of, has_only, number_or, truth};
use std::alloc::Global;
use toml::{Table, Value};

/// The fields that a port may have.
const PORT_FIELDS: [&str; 4] = ["queue", "log", "join", "hold"];

/// The maximum capacity of a log, in entries.
const MOST_LOG_ROOM: u64 = 65536;

/// The default capacity of a log.
const USUAL_LOG_ROOM: u64 = 64;

/// The maximum number of overload frames that a port may ask for.
const MOST_OVERLOADS: u64 = 2;

/// The ports that these tables describe.
pub(crate) fn read_ports(
    alloc: Global,
    version: Version,
    tables: &[Value],
) -> Result<Vec<PortPlan>, TraceFault>
    ensures said { IfOk result (λ plans. ArePaired (SaysPort version) (map view tables.now) plans.items) }
    ensures met { OnOk result (AllMet (ports_demands version 0 (map view tables.now))) }
    ensures unmet { (wrong : Wrong) → IsErrOf result (TraceFault.ScenarioField wrong) → IsFirstUnmet wrong (ports_demands version 0 (map view tables.now)) }
    ensures other { IfErr result IsFieldOrMemory }
{
    let mut plans = Vec::new(alloc);
    for (number, value) in tables.iter().enumerate() {
        plans.push(read_port(alloc, version, number, value)?)?;
    }
    Ok(plans)
}

/// The port with this number, which this table describes.
fn read_port(
    alloc: Global,
    version: Version,
    number: usize,
    value: &Value,
) -> Result<PortPlan, TraceFault>
    ensures said { IfOk result (SaysPort version (view value.now)) }
    ensures met { OnOk result (AllMet (port_demands version number (view value.now))) }
    ensures unmet { (wrong : Wrong) → IsErrOf result (TraceFault.ScenarioField wrong) → IsFirstUnmet wrong (port_demands version number (view value.now)) }
    ensures other { IfErr result IsFieldOrMemory }
{
    let fields = fields_of(value).ok_or(refused(number, PortField::Table))?;
    if !has_only(fields, &PORT_FIELDS) {
        return Err(refused(number, PortField::Unknown));
    }
    let queue = read_queue(alloc, version, number, fields)?;
    with_queue(number, fields, queue)
}

/// The fault of a port's field.
fn refused(number: usize, part: PortField) -> TraceFault
    ensures { result ≡ TraceFault.ScenarioField (Field.Port number part) }
{
    TraceFault::ScenarioField(Field::Port { number, part })
}

/// The frames in the queue of the port with this number and these fields.
fn read_queue(
    alloc: Global,
    version: Version,
    number: usize,
    fields: &Table,
) -> Result<Vec<TimedFrame>, TraceFault>
    ensures said { IfOk result (λ frames. ArePaired (SaysQueueElement version) (elements_in (named (codes "queue") (table (table_view fields.now)))) frames.items) }
    ensures met { OnOk result (AllMet (queue_demands version number (table (table_view fields.now)))) }
    ensures unmet { (wrong : Wrong) → IsErrOf result (TraceFault.ScenarioField wrong) → IsFirstUnmet wrong (queue_demands version number (table (table_view fields.now))) }
    ensures other { IfErr result IsFieldOrMemory }
{
    let values = elements_or_none(fields, "queue").ok_or(refused(number, PortField::Queue))?;
    read_frames(alloc, version, number, values)
}

/// The frames that these elements describe, in the queue of the port with this number.
fn read_frames(
    alloc: Global,
    version: Version,
    number: usize,
    values: &[Value],
) -> Result<Vec<TimedFrame>, TraceFault>
    ensures said { IfOk result (λ frames. ArePaired (SaysQueueElement version) (map view values.now) frames.items) }
    ensures met { OnOk result (AllMet (demands_on_each (frame_demands version number) 0 (map view values.now))) }
    ensures unmet { (wrong : Wrong) → IsErrOf result (TraceFault.ScenarioField wrong) → IsFirstUnmet wrong (demands_on_each (frame_demands version number) 0 (map view values.now)) }
    ensures other { IfErr result IsFieldOrMemory }
{
    let mut frames = Vec::new(alloc);
    for (place, value) in values.iter().enumerate() {
        let Some(timed) = queued(version, value) else {
            return Err(refused(number, PortField::Frame(place)));
        };
        frames.push(timed)?;
    }
    Ok(frames)
}

/// The port with this number, queue and fields.
fn with_queue(number: usize, fields: &Table, queue: Vec<TimedFrame>) -> Result<PortPlan, TraceFault>
    ensures queue { IfOk result (λ plan. plan.queue.items ≡ queue.items) }
    ensures log_room { IfOk result (λ plan. SaysNumber usual_log_room (named (codes "log") (table (table_view fields.now))) plan.log_room) }
    ensures joins { IfOk result (λ plan. SaysWhether (named (codes "join") (table (table_view fields.now))) plan.joins) }
    ensures overloads { IfOk result (λ plan. SaysNumber 0 (named (codes "hold") (table (table_view fields.now))) plan.overloads) }
    ensures met { OnOk result (AllMet (room_demands number (table (table_view fields.now)))) }
    ensures unmet { (wrong : Wrong) → IsErrOf result (TraceFault.ScenarioField wrong) → IsFirstUnmet wrong (room_demands number (table (table_view fields.now))) }
    ensures other { IfErr result IsFieldOrMemory }
{
    let log_room = number_or(fields, "log", USUAL_LOG_ROOM, MOST_LOG_ROOM).ok_or(refused(
        number,
        PortField::Log,
    ))?;
    let joins = truth(fields, "join").ok_or(refused(number, PortField::Join))?;
    let overloads = number_or(fields, "hold", 0, MOST_OVERLOADS).ok_or(refused(
        number,
        PortField::Hold,
    ))?;
    Ok(PortPlan {
        queue,
        log_room: log_room as usize,
        joins,
        overloads: overloads as u8,
    })
}
