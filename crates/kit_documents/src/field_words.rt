//! What each field of a document of the conformance kit must be, in words.
ghost use Rattle.std.specs.Prelude.{◌≤◌, length};

use crate::field::{CaseField, KitField, TranscriptField};

impl KitField {
    /// What the field must be, in words. They follow its name in a line of `canhold`.
    pub fn words(self) -> &'static str
        ensures short { length result.now ≤ 128 }
    {
        match self {
            KitField::Document => "must be a TOML document in UTF-8",
            KitField::Unknown => "a field at the top must be case or transcript",
            KitField::Cases => "must be an array of at most 4096 tables, [[case]]",
            KitField::Transcripts => {
                "must be an array of at most 4096 tables, [[transcript]]; for expect it must be left out"
            }
            KitField::Case { part, .. } => part.words(),
            KitField::Transcript { part, .. } => part.words(),
        }
    }
}

impl CaseField {
    /// What the field must be, in words.
    fn words(self) -> &'static str
        ensures short { length result.now ≤ 128 }
    {
        match self {
            CaseField::Table => "must be a table, [[case]]",
            CaseField::Unknown => {
                "a field of this table must be version, name, family, purpose, start, needs, choices, bits, tester, offers, holds or forced"
            }
            CaseField::Version => "must be 1",
            CaseField::Family => "must be 1 to 40 letters from a to z, digits and hyphens",
            CaseField::Name => {
                "must begin with the family and a hyphen, have at most 80 letters a to z, digits and hyphens, and be new"
            }
            CaseField::Purpose => "must be one line of at most 200 bytes",
            CaseField::Start => "must be 'idle' or 'joining'",
            CaseField::Needs => {
                "must be some of 'forced', 'hold', 'queue', 'recovery', in this order, and include what the case uses"
            }
            CaseField::Choices => "must be an array of names of choices, such as 'own-start'",
            CaseField::Bits => "must be 1 to 100000 bit times",
            CaseField::Tester => {
                "must be an array of 1 to 4096 strings of levels, together one for each bit time"
            }
            CaseField::Levels(_) => "must be a string of levels, such as '1*9 0101'",
            CaseField::Offers => "must be an array of at most 256 elements [time, 'FRAME']",
            CaseField::Offer(_) => {
                "must be [time, 'FRAME'], with a time below bits and not before the preceding one"
            }
            CaseField::Holds => "must be an array of at most 256 elements [time, n]",
            CaseField::Hold(_) => {
                "must be [time, n], n 0 to 2, with a time below bits and not before the preceding one"
            }
            CaseField::Forced => "must be an array of at most 4096 times",
            CaseField::ForcedTime(_) => {
                "must be a time below bits and after the preceding one, when the tester is recessive"
            }
        }
    }
}

impl TranscriptField {
    /// What the field must be, in words.
    fn words(self) -> &'static str
        ensures short { length result.now ≤ 128 }
    {
        match self {
            TranscriptField::Table => "must be a table, [[transcript]]",
            TranscriptField::Unknown => {
                "a field of this table must be version, case, drove, events, counters or end"
            }
            TranscriptField::Version => "must be 1",
            TranscriptField::Case => {
                "must be the name of a case of the document that no earlier transcript has"
            }
            TranscriptField::Drove => {
                "must be an array of at most 4096 strings of levels, together at most 100000"
            }
            TranscriptField::Levels(_) => "must be a string of levels, such as '1*9 0101'",
            TranscriptField::Events => {
                "must be an array of at most 100000 elements [time, 'EVENT']"
            }
            TranscriptField::Event(_) => {
                "must be [time, 'EVENT'], with a time of at most 100000 and after the preceding one"
            }
            TranscriptField::Counters => {
                "must be an array of at most 100000 elements [time, TEC, REC]"
            }
            TranscriptField::Change(_) => {
                "must be [time, TEC, REC], at most 65535 each, with a time of at most 100000 and after the preceding one"
            }
            TranscriptField::End => {
                "must be ['STATE', TEC, REC], STATE active, passive or off, and TEC and REC at most 65535"
            }
        }
    }
}
