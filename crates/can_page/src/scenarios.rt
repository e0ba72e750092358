ghost use Rattle.std.specs.Prelude.{◌≡◌, ◌<◌, ◌≤◌, ◌⊎◌, [], false, true, length, take, IfErr, IfOk, IfSome, IsErrOf, List, Some};
ghost use Rattle.can_trace.specs.PortTimes.{AreAllTold, AreTold};
ghost use Rattle.can_trace.specs.Report.{report};
ghost use Rattle.can_scenario_text.specs.Scenarios.{IsWrongScenarioField, IsScenarioText};
ghost use Rattle.can_trace.specs.declared.port_times.PortTime.{PortTime as Told};
ghost use Rattle.can_scenario_text.specs.declared.scenario.Scenario.{Scenario as Planned};
ghost use Rattle.can_stream.specs.declared.field.Field.{Field as Wrong};
ghost use Rattle.can_page.specs.Answers.{bad_scenario, all_done, no_memory, no_port, no_room};
ghost use Rattle.can_page.specs.Lines.{is_overfull, written_lines};
ghost use Rattle.can_page.specs.Plain.{plain_times, wrong_field};

use crate::answer::Answer;
use crate::lines::Lines;
use crate::plain::{PlainTime, WrongField};
use can_stream::{Sink, TraceFault};
use can_trace::{PortTime, Scenario, all_told_times, run_scenario, told_times};
use std::alloc::Global;

/// Runs the scenario in this text, and writes its report to `out`. If the text is not a valid scenario, the call writes
/// the first wrong field to `wrong`.
#[unsafe(no_mangle)]
pub extern "C" fn page_run(
    alloc: Global,
    text: &[u8],
    out: &mut Lines,
    wrong: &mut WrongField,
) -> u8
    ensures report { result ≡ all_done → (s : Planned) × (IsScenarioText text.now s × (written_lines out.new ≡ report s)) }
    ensures wrong { result ≡ bad_scenario → (field : Wrong) × (IsWrongScenarioField field text.now × (wrong.new ≡ wrong_field field)) }
    ensures answers { (result ≡ all_done) ⊎ (result ≡ bad_scenario) ⊎ (result ≡ no_room) ⊎ (result ≡ no_memory) }
    ensures room { result ≡ no_room → is_overfull out.new ≡ true }
{
    out.clear();
    run_onto(alloc, text, out, wrong).code()
}

/// Does this for any sink, which must be empty.
pub(crate) fn run_onto<W: Sink>(
    alloc: Global,
    text: &[u8],
    out: &mut W,
    wrong: &mut WrongField,
) -> Answer
    requires unfailed { W.has_failed out.old ≡ false }
    requires empty { W.contents out.old ≡ Some [] }
    ensures report { result ≡ Answer.Done → IfSome (W.contents out.new) (λ bytes. (s : Planned) × (IsScenarioText text.now s × (bytes ≡ report s))) }
    ensures wrong { result ≡ Answer.BadScenario → (field : Wrong) × (IsWrongScenarioField field text.now × (wrong.new ≡ wrong_field field)) }
    ensures answers { (result ≡ Answer.Done) ⊎ (result ≡ Answer.BadScenario) ⊎ (result ≡ Answer.NoRoom) ⊎ (result ≡ Answer.NoMemory) }
    ensures room { result ≡ Answer.NoRoom → W.has_failed out.new ≡ true }
{
    match read(alloc, text, wrong) {
        Err(answer) => answer,
        Ok(scenario) => match run_scenario(alloc, &scenario, out) {
            Ok(()) => Answer::Done,
            Err(TraceFault::Write) => Answer::NoRoom,
            Err(_) => Answer::NoMemory,
        },
    }
}

/// Writes what the port with this number does in each bit time of the scenario in this text, and the number of these
/// bit times.
#[unsafe(no_mangle)]
pub extern "C" fn page_port_times(
    alloc: Global,
    text: &[u8],
    node: usize,
    times: &mut [PlainTime],
    count: &mut usize,
) -> u8
    ensures times { result ≡ all_done → (s : Planned) × (told : List Told) × (IsScenarioText text.now s × (node < length s.ports.items) × AreTold s node told
        × (take count.new times.new ≡ plain_times told) × (count.new ≡ length told)) }
    ensures wrong { result ≡ bad_scenario → (field : Wrong) × IsWrongScenarioField field text.now }
    ensures answers { (result ≡ all_done) ⊎ (result ≡ bad_scenario) ⊎ (result ≡ no_port) ⊎ (result ≡ no_room) ⊎ (result ≡ no_memory) }
    ensures port { result ≡ no_port → (s : Planned) × (IsScenarioText text.now s × (length s.ports.items ≤ node)) }
    ensures room { result ≡ no_room → (s : Planned) × (told : List Told) × (IsScenarioText text.now s × (node < length s.ports.items) × AreTold s node told
        × (length times.old < length told)) }
{
    tell_port_times(alloc, text, node, times, count).code()
}

/// Does this, and returns the status before it becomes a number.
fn tell_port_times(
    alloc: Global,
    text: &[u8],
    node: usize,
    times: &mut [PlainTime],
    count: &mut usize,
) -> Answer
    ensures times { result ≡ Answer.Done → (s : Planned) × (told : List Told) × (IsScenarioText text.now s × (node < length s.ports.items) × AreTold s node told
        × (take count.new times.new ≡ plain_times told) × (count.new ≡ length told)) }
    ensures wrong { result ≡ Answer.BadScenario → (field : Wrong) × IsWrongScenarioField field text.now }
    ensures answers { (result ≡ Answer.Done) ⊎ (result ≡ Answer.BadScenario) ⊎ (result ≡ Answer.NoPort) ⊎ (result ≡ Answer.NoRoom) ⊎ (result ≡ Answer.NoMemory) }
    ensures port { result ≡ Answer.NoPort → (s : Planned) × (IsScenarioText text.now s × (length s.ports.items ≤ node)) }
    ensures room { result ≡ Answer.NoRoom → (s : Planned) × (told : List Told) × (IsScenarioText text.now s × (node < length s.ports.items) × AreTold s node told
        × (length times.old < length told)) }
{
    let mut wrong = WrongField::none();
    match read(alloc, text, &mut wrong) {
        Err(answer) => answer,
        Ok(scenario) => {
            if node >= scenario.port_count() {
                return Answer::NoPort;
            }
            let Ok(told) = told_times(alloc, &scenario, node) else {
                return Answer::NoMemory;
            };
            hand_over(&told, times, count)
        }
    }
}

/// Writes what each port does in each bit time of the scenario in this text, one port after another, and the number of
/// these entries. The bus runs once for all ports.
#[unsafe(no_mangle)]
pub extern "C" fn page_all_port_times(
    alloc: Global,
    text: &[u8],
    times: &mut [PlainTime],
    count: &mut usize,
) -> u8
    ensures times { result ≡ all_done → (s : Planned) × (told : List Told) × (IsScenarioText text.now s × AreAllTold s told
        × (take count.new times.new ≡ plain_times told) × (count.new ≡ length told)) }
    ensures wrong { result ≡ bad_scenario → (field : Wrong) × IsWrongScenarioField field text.now }
    ensures answers { (result ≡ all_done) ⊎ (result ≡ bad_scenario) ⊎ (result ≡ no_room) ⊎ (result ≡ no_memory) }
    ensures room { result ≡ no_room → (s : Planned) × (told : List Told) × (IsScenarioText text.now s × AreAllTold s told × (length times.old < length told)) }
{
    tell_all_port_times(alloc, text, times, count).code()
}

/// Does this, and returns the status before it becomes a number.
fn tell_all_port_times(
    alloc: Global,
    text: &[u8],
    times: &mut [PlainTime],
    count: &mut usize,
) -> Answer
    ensures times { result ≡ Answer.Done → (s : Planned) × (told : List Told) × (IsScenarioText text.now s × AreAllTold s told
        × (take count.new times.new ≡ plain_times told) × (count.new ≡ length told)) }
    ensures wrong { result ≡ Answer.BadScenario → (field : Wrong) × IsWrongScenarioField field text.now }
    ensures answers { (result ≡ Answer.Done) ⊎ (result ≡ Answer.BadScenario) ⊎ (result ≡ Answer.NoRoom) ⊎ (result ≡ Answer.NoMemory) }
    ensures room { result ≡ Answer.NoRoom → (s : Planned) × (told : List Told) × (IsScenarioText text.now s × AreAllTold s told × (length times.old < length told)) }
{
    let mut wrong = WrongField::none();
    match read(alloc, text, &mut wrong) {
        Err(answer) => answer,
        Ok(scenario) => {
            let Ok(told) = all_told_times(alloc, &scenario) else {
                return Answer::NoMemory;
            };
            hand_over(&told, times, count)
        }
    }
}

/// Writes these bit times and their number, if there is space for them.
fn hand_over(told: &[PortTime], times: &mut [PlainTime], count: &mut usize) -> Answer
    ensures times { result ≡ Answer.Done → (take count.new times.new ≡ plain_times told.now) × (count.new ≡ length told.now) }
    ensures room { result ≡ Answer.NoRoom → length times.old < length told.now }
    ensures answers { (result ≡ Answer.Done) ⊎ (result ≡ Answer.NoRoom) }
{
    if times.len() < told.len() {
        return Answer::NoRoom;
    }
    write_times(told, times);
    *count = told.len();
    Answer::Done
}

/// Returns the scenario in this text, or writes the first wrong field to `wrong`.
fn read(alloc: Global, text: &[u8], wrong: &mut WrongField) -> Result<Scenario, Answer>
    ensures found { IfOk result (IsScenarioText text.now) }
    ensures wrong { IsErrOf result Answer.BadScenario → (field : Wrong) × (IsWrongScenarioField field text.now × (wrong.new ≡ wrong_field field)) }
    ensures other { IfErr result (λ answer. (answer ≡ Answer.BadScenario) ⊎ (answer ≡ Answer.NoMemory)) }
{
    match Scenario::from_text(alloc, text) {
        Ok(scenario) => Ok(scenario),
        Err(TraceFault::ScenarioField(field)) => {
            *wrong = WrongField::of(field);
            Err(Answer::BadScenario)
        }
        Err(_) => Err(Answer::NoMemory),
    }
}

/// Writes bit times over the first elements.
fn write_times(told: &[PortTime], times: &mut [PlainTime])
    requires { length told.now ≤ length times.old }
    ensures { take (length told.now) times.new ≡ plain_times told.now }
{
    for place in 0..told.len() {
        times[place] = PlainTime::of(&told[place]);
    }
}
