//! The fields of a network's document, as a refusal names them, and what each must be.
ghost use Rattle.std.specs.Prelude.{◌≤◌, length};

use thiserror::Error;

/// What is wrong in a document: the document, or one of its fields. Messages are counted from 0.
#[derive(Clone, Copy, Debug, PartialEq, Eq, Error)]
pub enum PlanField {
    /// The bytes are not UTF-8, or not a TOML document.
    #[error("toml")]
    Document,
    /// An unknown field at the top.
    #[error("key")]
    Unknown,
    /// The version of the format.
    #[error("version")]
    Version,
    /// The bit rate.
    #[error("rate")]
    Rate,
    /// The table of errors.
    #[error("errors")]
    Errors,
    /// An unknown field of that table.
    #[error("errors.key")]
    UnknownError,
    /// How many hits may come at once.
    #[error("errors.burst")]
    Burst,
    /// The time after which one more may come.
    #[error("errors.spacing")]
    Spacing,
    /// The list of messages.
    #[error("message")]
    Messages,
    /// A field of one message, or the message itself.
    #[error("message[{place}]{part}")]
    Message { place: usize, part: MessageField },
}

/// What is wrong in a message's table.
#[derive(Clone, Copy, Debug, PartialEq, Eq, Error)]
pub enum MessageField {
    /// It is not a table.
    #[error("")]
    Table,
    /// An unknown field.
    #[error(".key")]
    Unknown,
    /// Identifier and kind of its frames.
    #[error(".frame")]
    Frame,
    #[error(".dlc")]
    Dlc,
    #[error(".period")]
    Period,
    #[error(".jitter")]
    Jitter,
    #[error(".deadline")]
    Deadline,
    #[error(".name")]
    Name,
    /// Its frames have the arbitration field of an earlier message.
    #[error("")]
    Repeated,
    /// It has the name of an earlier message.
    #[error(".name")]
    RepeatedName,
}

impl PlanField {
    /// What the field must be, in words. They follow its name in a line of `canplan`; the page shows them too.
    pub fn words(self) -> &'static str
        ensures short { length result.now ≤ 128 }
    {
        match self {
            PlanField::Document => "must be a TOML document in UTF-8",
            PlanField::Unknown => { "a field at the top must be version, rate, errors or message" }
            PlanField::Version => "must be 1",
            PlanField::Rate => "must be 0 to 1000000 bits a second",
            PlanField::Errors => "must be a table, [errors]",
            PlanField::UnknownError => "a field of this table must be burst or spacing",
            PlanField::Burst => "must be 0 to 65535 hits",
            PlanField::Spacing => "must be 0, or at least one bit time, at most 4294967295",
            PlanField::Messages => "must be an array of 1 to 512 tables, [[message]]",
            PlanField::Message { part, .. } => part.words(),
        }
    }
}

impl MessageField {
    /// What the field must be, in words.
    pub(crate) fn words(self) -> &'static str
        ensures short { length result.now ≤ 128 }
    {
        match self {
            MessageField::Table => "must be a table, [[message]]",
            MessageField::Unknown => {
                "a field of this table must be frame, dlc, period, jitter, deadline or name"
            }
            MessageField::Frame => {
                "must be kind, identifier and D or R of a frame, such as 'S 100 D', without the DLC"
            }
            MessageField::Dlc => "must be 0 to 15",
            MessageField::Period => "must be at least one bit time, at most 4294967295",
            MessageField::Jitter | MessageField::Deadline => "must be a time of 0 to 4294967295",
            MessageField::Name => {
                "must be 1 to 64 printable ASCII characters, except double quotation marks and backslashes"
            }
            MessageField::Repeated => {
                "must differ in identifier or kind from every earlier message"
            }
            MessageField::RepeatedName => "must differ from the name of every earlier message",
        }
    }
}
