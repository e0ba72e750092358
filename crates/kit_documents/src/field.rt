//! The fields of a kit document, as errors name them.
use thiserror::Error;

/// An invalid field of a kit document: of the document itself, a case or a transcript. Cases, transcripts and elements
/// are counted from 0.
#[derive(Clone, Copy, Debug, PartialEq, Eq, Error)]
pub enum KitField {
    /// The bytes are not UTF-8, or not a TOML document.
    #[error("toml")]
    Document,
    /// An unknown field at the top level.
    #[error("key")]
    Unknown,
    /// The list of cases.
    #[error("case")]
    Cases,
    /// The list of transcripts.
    #[error("transcript")]
    Transcripts,
    /// A part of a case.
    #[error("case[{number}]{part}")]
    Case {
        number: usize,
        part: CaseField,
    },
    /// A part of a transcript.
    #[error("transcript[{number}]{part}")]
    Transcript {
        number: usize,
        part: TranscriptField,
    },
}

/// The invalid part of a case's table.
#[derive(Clone, Copy, Debug, PartialEq, Eq, Error)]
pub enum CaseField {
    /// It is not a table.
    #[error("")]
    Table,
    /// An unknown field.
    #[error(".key")]
    Unknown,
    /// The version of the format.
    #[error(".version")]
    Version,
    #[error(".family")]
    Family,
    #[error(".name")]
    Name,
    /// The purpose of the case.
    #[error(".purpose")]
    Purpose,
    /// The start: what the bus was before bit time 0.
    #[error(".start")]
    Start,
    /// What a test bench must be able to do: the list is invalid, or lacks an entry that the case needs.
    #[error(".needs")]
    Needs,
    /// The choices of a controller that the expected result depends on.
    #[error(".choices")]
    Choices,
    /// The number of bit times.
    #[error(".bits")]
    Bits,
    /// The list of the tester's levels, or their total number.
    #[error(".tester")]
    Tester,
    /// An element of that list.
    #[error(".tester[{0}]")]
    Levels(usize),
    /// The list of offered frames.
    #[error(".offers")]
    Offers,
    /// An element of that list.
    #[error(".offers[{0}]")]
    Offer(usize),
    /// The list of overload requests.
    #[error(".holds")]
    Holds,
    /// An element of that list.
    #[error(".holds[{0}]")]
    Hold(usize),
    /// The list of forced bit times.
    #[error(".forced")]
    Forced,
    /// An element of that list.
    #[error(".forced[{0}]")]
    ForcedTime(usize),
}

/// The invalid part of a transcript's table.
#[derive(Clone, Copy, Debug, PartialEq, Eq, Error)]
pub enum TranscriptField {
    /// It is not a table.
    #[error("")]
    Table,
    /// An unknown field.
    #[error(".key")]
    Unknown,
    /// The version of the format.
    #[error(".version")]
    Version,
    /// The case that it belongs to.
    #[error(".case")]
    Case,
    /// The list of driven levels, or their total number.
    #[error(".drove")]
    Drove,
    /// An element of that list.
    #[error(".drove[{0}]")]
    Levels(usize),
    /// The list of events.
    #[error(".events")]
    Events,
    /// An element of that list.
    #[error(".events[{0}]")]
    Event(usize),
    /// The list of counter changes.
    #[error(".counters")]
    Counters,
    /// An element of that list.
    #[error(".counters[{0}]")]
    Change(usize),
    /// The state and the counters at the end.
    #[error(".end")]
    End,
}
