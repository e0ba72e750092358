//! A network, read from a document.
ghost use Rattle.std.specs.Prelude.{◌≡◌, ◌<◌, ◌≤◌, length};
ghost use Rattle.can_frame.specs.Arbitration.{arbitration_field};

use crate::document;
use crate::fault::PlanFault;
use crate::messages::read_messages;
use crate::name::Name;
use crate::names::refuse_same_names;
use crate::order::in_order;
use can_frame::Frame;
use can_longest::LongestWires;
use can_plan::{HitRate, Message};
use std::alloc::Global;

/// A message with its deadline and its name. All times are whole bit times.
#[derive(Clone, Copy, Debug)]
pub struct Planned {
    /// The frame with DLC 0 that has the identifier and the kind of the message's frames.
    pub head: Frame,
    /// The DLC of its frames.
    pub dlc: u8,
    /// What the analysis needs of it.
    pub message: Message,
    /// The longest response time allowed: from the release of a frame to the last level of its end of frame.
    pub deadline: u32,
    /// Its name, if it has one.
    pub name: Option<Name>,
    ghost named: { message.field ≡ arbitration_field head },
    ghost periodic: { 0 < message.period },
    ghost sized: { 0 < message.longest },
}

/// A network: its messages, 1 to 512 of them, highest priority first, and its error model.
#[derive(Debug, Drop)]
pub struct Plan {
    /// The bit rate in bits a second, with which the document's times were converted; 0 if it has them in bit times.
    pub rate: u32,
    /// The error model; `None` if the document has no errors.
    pub errors: Option<HitRate>,
    pub messages: Vec<Planned>,
    ghost few: { length messages.items ≤ 512 },
}

impl Plan {
    ghost use Rattle.std.specs.Prelude.{IfErr, IfOk, IsErrOf};
    ghost use Rattle.can_plan_text.specs.declared.field.PlanField.{PlanField as Wrong};
    ghost use Rattle.can_plan_text.specs.Answers.{hit_rate_of};
    ghost use Rattle.can_plan_text.specs.Plans.{IsPlanText, IsWrongPlanField};

    /// Returns the network in a TOML document.
    ///
    /// | Field | Value | If left out |
    /// |---|---|---|
    /// | `version` | 1 | refused |
    /// | `rate` | bits a second, 0 to 1000000 | 0 |
    /// | `errors` | a table | no hits |
    /// | `burst`, in `errors` | 0 to 65535 | 0 |
    /// | `spacing`, in `errors` | a time, 0 or at least one bit time | 0 |
    /// | `message` | an array of 1 to 512 tables | refused |
    /// | `frame`, of a message | as `S 100 D` | refused |
    /// | `dlc` | 0 to 15 | 8 |
    /// | `period` | a time, at least one bit time | refused |
    /// | `jitter` | a time | 0 |
    /// | `deadline` | a time | the period |
    /// | `name` | 1 to 64 printable characters of ASCII, none of them a quotation mark or a backslash | no name |
    ///
    /// Times are whole numbers, 0 to 4294967295: microseconds if `rate` is above 0, otherwise bit times.
    ///
    /// `Field` is the first field that is wrong, in this order:
    ///
    /// - the document; an unknown field; `version`; `rate`; `errors`, an unknown field of it, `burst` and `spacing`;
    ///   `message`
    /// - of each message its table, an unknown field, `frame`, `dlc`, `period`, `jitter`, `deadline` and `name`
    /// - the first message whose frames have the arbitration field of an earlier one
    /// - the first message that has the name of an earlier one
    ///
    /// `Memory`: memory ran out.
    pub fn from_text(alloc: Global, text: &[u8]) -> Result<Plan, PlanFault>
        ensures found { IfOk result (IsPlanText text.now) }
        ensures wrong { (wrong : Wrong) → IsErrOf result (PlanFault.Field wrong) → IsWrongPlanField wrong text.now }
    {
        let document = document::parse(alloc, text)?;
        let top = document::read_top(&document)?;
        let wires = LongestWires::new(alloc)?;
        let listed = read_messages(alloc, &wires, top.rate, top.messages)?;
        let messages = in_order(alloc, &listed)?;
        refuse_same_names(&listed)?;
        Ok(Plan {
            rate: top.rate,
            errors: top.errors,
            messages,
        })
    }

    /// Returns the error model of the network. Without errors in the document no hits come.
    pub fn hit_rate(&self) -> HitRate
        ensures { result ≡ hit_rate_of self.now.errors }
    {
        self.errors.unwrap_or(HitRate {
            burst: 0,
            spacing: 0,
        })
    }
}
