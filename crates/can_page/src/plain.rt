//! What a port does in a bit time, and what is wrong in a scenario or a network, as plain fields.
ghost use Rattle.std.specs.Prelude.{◌≡◌};
ghost use Rattle.can_page.specs.Plain.{plain_time, wrong_at, wrong_field, wrong_hit, wrong_in_message, wrong_in_plan, wrong_in_port, wrong_list};

use can_plan_text::{MessageField, PlanField};
use can_terms::EventKind;
use can_trace::{Field, HitList, PortField, PortTime};

/// What a port does in a bit time.
#[repr(C)]
#[derive(Clone, Copy, Debug)]
pub struct PlainTime {
    /// The transmit error counter at the beginning of the bit time.
    pub transmit: u16,
    /// The receive error counter at the beginning of the bit time.
    pub receive: u16,
    /// The number of its phase.
    pub phase: u8,
    /// 1 if it is the transmitter of the frame on the bus, otherwise 0.
    pub sends: u8,
    /// The number of the level that it drives.
    pub drove: u8,
    /// The number of the level that it samples.
    pub saw: u8,
    /// The number of the event of the bit time.
    pub event: u8,
}

/// What is wrong in a scenario or a network.
#[repr(C)]
#[derive(Clone, Copy, Debug)]
pub struct WrongField {
    /// The port, the place in a list of injected bit errors, or the message, if the field belongs to one.
    pub number: usize,
    /// The element of the port's queue, if the field is one.
    pub element: usize,
    /// The number of the field.
    pub field: u8,
}

impl PlainTime {
    /// Returns the plain fields of a bit time of a port.
    pub(crate) fn of(time: &PortTime) -> PlainTime
        ensures { result ≡ plain_time time.now }
    {
        PlainTime {
            transmit: time.transmit,
            receive: time.receive,
            phase: time.phase.code(),
            sends: u8::from(time.sends),
            drove: time.drove.code(),
            saw: time.saw.code(),
            event: EventKind::code_of(time.event),
        }
    }
}

impl WrongField {
    /// Returns the plain fields for this field of a scenario.
    pub(crate) fn of(field: Field) -> WrongField
        ensures { result ≡ wrong_field field }
    {
        match field {
            Field::Document => WrongField::at(0, 0, 0),
            Field::Unknown => WrongField::at(1, 0, 0),
            Field::Version => WrongField::at(2, 0, 0),
            Field::Bits => WrongField::at(3, 0, 0),
            Field::Ports => WrongField::at(4, 0, 0),
            Field::Port { number, part } => WrongField::in_port(number, part),
            Field::Hits(list) => WrongField::in_list(list),
            Field::Hit { list, place } => WrongField::in_hit(list, place),
        }
    }

    /// Returns plain fields for the time before a call writes them.
    pub(crate) fn none() -> WrongField {
        WrongField::at(0, 0, 0)
    }

    /// Returns the plain fields for a field of a port.
    fn in_port(number: usize, part: PortField) -> WrongField
        ensures { result ≡ wrong_in_port number part }
    {
        match part {
            PortField::Table => WrongField::at(5, number, 0),
            PortField::Unknown => WrongField::at(6, number, 0),
            PortField::Queue => WrongField::at(7, number, 0),
            PortField::Frame(element) => WrongField::at(8, number, element),
            PortField::Log => WrongField::at(9, number, 0),
            PortField::Join => WrongField::at(10, number, 0),
            PortField::Hold => WrongField::at(11, number, 0),
        }
    }

    /// Returns the plain fields for a list of injected bit errors.
    fn in_list(list: HitList) -> WrongField
        ensures { result ≡ wrong_list list }
    {
        match list {
            HitList::At => WrongField::at(12, 0, 0),
            HitList::In => WrongField::at(13, 0, 0),
            HitList::View => WrongField::at(14, 0, 0),
        }
    }

    /// Returns the plain fields for an element of such a list.
    fn in_hit(list: HitList, place: usize) -> WrongField
        ensures { result ≡ wrong_hit list place }
    {
        match list {
            HitList::At => WrongField::at(15, place, 0),
            HitList::In => WrongField::at(16, place, 0),
            HitList::View => WrongField::at(17, place, 0),
        }
    }

    /// Returns the plain fields for this field of a network.
    pub(crate) fn in_plan(field: PlanField) -> WrongField
        ensures { result ≡ wrong_in_plan field }
    {
        match field {
            PlanField::Document => WrongField::at(0, 0, 0),
            PlanField::Unknown => WrongField::at(1, 0, 0),
            PlanField::Version => WrongField::at(2, 0, 0),
            PlanField::Rate => WrongField::at(3, 0, 0),
            PlanField::Errors => WrongField::at(4, 0, 0),
            PlanField::UnknownError => WrongField::at(5, 0, 0),
            PlanField::Burst => WrongField::at(6, 0, 0),
            PlanField::Spacing => WrongField::at(7, 0, 0),
            PlanField::Messages => WrongField::at(8, 0, 0),
            PlanField::Message { place, part } => WrongField::in_message(place, part),
        }
    }

    /// Returns the plain fields for a field of a message.
    fn in_message(place: usize, part: MessageField) -> WrongField
        ensures { result ≡ wrong_in_message place part }
    {
        match part {
            MessageField::Table => WrongField::at(9, place, 0),
            MessageField::Unknown => WrongField::at(10, place, 0),
            MessageField::Frame => WrongField::at(11, place, 0),
            MessageField::Dlc => WrongField::at(12, place, 0),
            MessageField::Period => WrongField::at(13, place, 0),
            MessageField::Jitter => WrongField::at(14, place, 0),
            MessageField::Deadline => WrongField::at(15, place, 0),
            MessageField::Repeated => WrongField::at(16, place, 0),
            MessageField::Name => WrongField::at(17, place, 0),
            MessageField::RepeatedName => WrongField::at(18, place, 0),
        }
    }

    /// Returns the field with these numbers.
    fn at(field: u8, number: usize, element: usize) -> WrongField
        ensures { result ≡ wrong_at field number element }
    {
        WrongField {
            number,
            element,
            field,
        }
    }
}
