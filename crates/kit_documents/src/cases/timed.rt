//! The lists of a case: offers, overload requests and forced bit times.
ghost use Rattle.std.specs.Prelude.{◌≡◌, ◌≢◌, ◌<◌, All, List, Some, codes, length, map, slice_index, take, IfOk, IsErrOf, MatchOption, OnOk};
ghost use Rattle.std.specs.List.{slice_get};
ghost use Rattle.toml.specs.Data.{table, Data};
ghost use Rattle.toml.specs.View.{table_view};
ghost use Rattle.can_frame.specs.declared.level.Level.TheVariants.{Recessive};
ghost use Rattle.kit_documents.specs.declared.field.KitField.{KitField as Wrong};
ghost use Rattle.document_values.specs.Demands.{demands_on_each, AllMet, IsFirstUnmet};
ghost use Rattle.document_values.specs.Values.{elements_in, named, ArePaired};
ghost use Rattle.kit_documents.specs.Cases.{tester_level, forced_at, forced_demands, lists_demands, strings_of, SaysTester};
ghost use Rattle.kit_documents.specs.Lists.{SaysHold, SaysOffer, SaysTime, SayStrings};

use crate::cases::lists::{CaseList, read_list};
use crate::cases::tester::forced_tester;
use crate::fault::KitFault;
use crate::field::CaseField;
use can_frame::{Frame, Level};
use can_terms::{TesterLevel, Timed};
use std::alloc::Global;
use toml::Table;

/// The frames and requests that the controller gets, and what the tester does in each bit time.
#[derive(Drop)]
pub(crate) struct Lists {
    pub(crate) tester: Vec<TesterLevel>,
    pub(crate) offers: Vec<Timed<Frame>>,
    pub(crate) holds: Vec<Timed<u8>>,
}

/// Reads the lists of the case with this number, whose tester drives these levels.
pub(crate) fn read_lists(
    alloc: Global,
    number: usize,
    bits: u32,
    levels: &[Level],
    fields: &Table,
) -> Result<Lists, KitFault>
    requires strings { SayStrings (strings_of (table (table_view fields.now))) levels.now }
    requires long { length levels.now ≡ bits }
    ensures offers { IfOk result (λ lists. ArePaired SaysOffer (elements_in (named (codes "offers") (table (table_view fields.now)))) lists.offers.items) }
    ensures holds { IfOk result (λ lists. ArePaired SaysHold (elements_in (named (codes "holds") (table (table_view fields.now)))) lists.holds.items) }
    ensures long { IfOk result (λ lists. length lists.tester.items ≡ bits) }
    ensures tester { IfOk result (λ lists. SaysTester (table (table_view fields.now)) lists.tester.items) }
    ensures met { OnOk result (AllMet (lists_demands number bits (table (table_view fields.now)))) }
    ensures unmet { (wrong : Wrong) → IsErrOf result (KitFault.Field wrong) → IsFirstUnmet wrong (lists_demands number bits (table (table_view fields.now))) }
{
    let offers = read_list(alloc, CaseList::Offers, number, bits, fields)?;
    let holds = read_list(alloc, CaseList::Holds, number, bits, fields)?;
    let times: Vec<u32> = read_list(alloc, CaseList::Forced, number, bits, fields)?;
    let tester = read_forced(alloc, number, levels, &times)?;
    Ok(Lists {
        tester,
        offers,
        holds,
    })
}

/// What a tester with these levels does, forced at the times of the case, if it is recessive at each of them.
fn read_forced(
    alloc: Global,
    number: usize,
    levels: &[Level],
    times: &[u32],
) -> Result<Vec<TesterLevel>, KitFault>
    requires { All (λ time. time < length levels.now) times.now }
    ensures does { IfOk result (λ does. does.items ≡ forced_at times.now (map tester_level levels.now)) }
    ensures met { (strings ds : List Data) → SayStrings strings levels.now → ArePaired SaysTime ds times.now → OnOk result (AllMet (demands_on_each (forced_demands number strings) 0 ds)) }
    ensures unmet { (strings ds : List Data) → SayStrings strings levels.now → ArePaired SaysTime ds times.now → (wrong : Wrong) → IsErrOf result (KitFault.Field wrong) → IsFirstUnmet wrong (demands_on_each (forced_demands number strings) 0 ds) }
{
    if let Some(place) = first_dominant(levels, times) {
        return Err(KitFault::in_case(number, CaseField::ForcedTime(place)));
    }
    Ok(forced_tester(alloc, levels, times)?)
}

/// The number of the first of these times at which the tester is dominant.
fn first_dominant(levels: &[Level], times: &[u32]) -> Option<usize>
    requires { All (λ time. time < length levels.now) times.now }
    ensures { MatchOption result
        (All (λ time. slice_get levels.now time ≡ Some Recessive) times.now)
        (λ place. (place < length times.now) × (slice_get levels.now (slice_index times.now place) ≢ Some Recessive) × All (λ time. slice_get levels.now time ≡ Some Recessive) (take place times.now)) }
{
    for (place, time) in times.iter().enumerate() {
        if levels[*time as usize] == Level::Dominant {
            return Some(place);
        }
    }
    None
}
