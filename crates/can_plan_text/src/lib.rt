//! Networks in documents, and the analysis of can_plan for their messages, as text. Also the worst case of a message
//! without hits, and its scenario, which can be run bit by bit: frames are offered so that one of the message's own has
//! the longest response time. And what the program `canplan` does, over any reader and writers; the contract of
//! `execute` states what was read and written for each outcome. (docs/PLANNING.md, "`canplan`" and "The worst case")
//!
//! | File | What it has | Defined in |
//! |---|---|---|
//! | `plan.rt` | [`Plan`], a network that was read: its messages, highest priority first | `specs/Plans.antt` |
//! | `document.rt` | the document, and its fields at the top | `specs/Plans.antt` |
//! | `messages.rt` | its messages, one after another; [`head_of`], from a frame's text without its DLC | `specs/Plans.antt` |
//! | `name.rt` | [`Name`], the name of a message | `specs/Names.antt` |
//! | `names.rt` | names in documents, of which no two are the same | `specs/Names.antt` |
//! | `times.rt` | microseconds as whole bit times, and back | `specs/Times.antt` |
//! | `order.rt` | messages in the order of priority | `specs/Plans.antt` |
//! | `verdict.rt` | [`Analysis`] of a network, with a [`Verdict`] for each message | `specs/Answers.antt` |
//! | `analysis.rt` | [`analysed`], the analysis by can_plan | `specs/Answers.antt` |
//! | `latest.rt` | the latest frame of each message, which decides its bound: a `Detail`, of `detail.rt` | `specs/Details.antt` |
//! | `left.rt` | the margins of a network: `Left` | `specs/Details.antt` |
//! | `answer.rt` | [`answered`] and [`answered_in`], from a document to the output | `specs/Report.antt`, `specs/Details.antt` |
//! | `report.rt` | [`push_report`], the output as text | `specs/Report.antt` |
//! | `details.rt`, `left_text.rt` | the output with details, as text | `specs/Details.antt` |
//! | `laws.rt` | [`one_plan_field`]: at most one field of bytes counts as the wrong one | `specs/Plans.antt` |
//! | `fault.rt` | [`PlanFault`], why a document is refused | |
//! | `field.rt` | [`PlanField`], what is wrong in a document, and what it must be, in words | |
//! | `timelines.rt` | [`timeline`], from a network's document and the name of a message to the scenario | `specs/Timelines.antt` |
//! | `case.rt` | [`WorstCase`], which frames are offered when | `specs/Worst.antt` |
//! | `worst.rt` | [`worst_case`], the worst case of a message | `specs/Worst.antt` |
//! | `period.rt` | the busy period of a worst case | `specs/Worst.antt` |
//! | `frames.rt` | a message's longest frame | `specs/Worst.antt` |
//! | `scenario.rt` | [`push_scenario`], the scenario as text | `specs/Scenario.antt` |
//! | `named.rt` | which message has a name | `specs/Timelines.antt` |
//! | `worst_laws.rt` | [`worst_cases_keep_to_messages`]: bounds apply to the frames of worst cases | `specs/Keeping.antt` |
//! | `worst_fault.rt` | [`WorstFault`], why there is no scenario | |
//! | `words.rt` | [`Asked`], what the words of a command line ask for: bounds, with or without details, a scenario, the help text, or the version | `specs/Words.antt` |
//! | `help.rt` | [`HELP`], the help text; [`VERSION`] | |
//! | `canplan_fault.rt` | [`CanplanFault`], why a run has not done all that was asked | `specs/Status.antt` |
//! | `answering.rt` | reads a document, and writes the output for it | `specs/Runs.antt` |
//! | `drawing.rt` | reads a document, and writes the scenario of a message's worst case | `specs/Runs.antt` |
//! | `executing.rt` | [`execute`], a run, with the line of its fault and its exit status | `specs/Runs.antt` |
#![tactic(auto)]

mod analysis;
mod answer;
mod answering;
mod canplan_fault;
mod case;
mod detail;
mod details;
mod document;
mod drawing;
mod executing;
mod fault;
mod field;
mod frames;
mod help;
mod latest;
mod laws;
mod left;
mod left_text;
mod messages;
mod name;
mod named;
mod names;
mod order;
mod period;
mod plan;
mod report;
mod scenario;
mod timelines;
mod times;
mod verdict;
mod words;
mod worst;
mod worst_fault;
mod worst_laws;

pub use analysis::analysed;
pub use answer::{Answer, Form, answered, answered_in};
pub use canplan_fault::CanplanFault;
pub use case::{Sequence, WorstCase};
pub use executing::{CANPLAN, execute};
pub use fault::PlanFault;
pub use field::{MessageField, PlanField};
pub use help::{HELP, VERSION};
pub use laws::one_plan_field;
pub use messages::head_of;
pub use name::{LONGEST_NAME, Name};
pub use plan::{Plan, Planned};
pub use report::push_report;
pub use scenario::push_scenario;
pub use timelines::timeline;
pub use verdict::{Analysis, Verdict};
pub use words::Asked;
pub use worst::worst_case;
pub use worst_fault::WorstFault;
pub use worst_laws::worst_cases_keep_to_messages;
