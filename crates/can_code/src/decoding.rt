ghost use Rattle.std.specs.Prelude.{◌≡◌, ◌≤◌, ◌++◌, List, length, take, IfOk, IfErr};
ghost use Rattle.can_frame.specs.declared.level.Level.{Level as Bit};
ghost use Rattle.can_wire.specs.Heard.{HeardParts, Spells};
ghost use Rattle.can_code.specs.CodeFaults.{IsCodeFault};

use crate::decoder::Decoder;
use crate::fault::{CodeFault, CodeFaultKind};
use can_frame::Level;
use can_wire::{Heard, PackedBits};

/// Returns the frame at the front of the levels as received, and the number of its levels. (Bosch
/// CAN 2.0 part B, sections 3.2.1 and 6)
///
/// The ACK slot, the reserved bits, SRR and the last level of the end of frame are accepted at
/// either value. If there is no such frame, the fault is the first one from the left, and its place
/// is that of the level that shows it. If the levels end too early, the place is their number. If
/// the CRC sequence is wrong, it is the last place of the stuffed part.
pub fn decode(levels: &[Level]) -> Result<(Heard, usize), CodeFault>
    ensures found { IfOk result (λ r. Spells r.0 (take r.1 levels.now) × (r.1 ≤ length levels.now)) }
    ensures only { (h : HeardParts) (w rest : List Bit) → Spells h w → w ++ rest ≡ levels.now → result ≡ Ok (h, length w) }
    ensures fault { IfErr result (IsCodeFault levels.now) }
{
    let Some((first, rest)) = levels.split_first() else {
        return Err(fault(CodeFaultKind::Short, 0));
    };
    if first.is_recessive() {
        return Err(fault(CodeFaultKind::NoStartOfFrame, 0));
    }
    let mut decoder = Decoder::<PackedBits>::begin();
    for (before, level) in rest.iter().enumerate() {
        let place = before + 1;
        match decoder.hear(*level) {
            Ok(None) => {}
            Ok(Some(heard)) => return Ok((heard, place + 1)),
            Err(kind) => return Err(fault(kind, place)),
        }
    }
    Err(fault(CodeFaultKind::Short, levels.len()))
}

/// The fault of this kind at this place.
fn fault(kind: CodeFaultKind, place: usize) -> CodeFault
    ensures { result ≡ record { kind = kind; place = place } }
{
    CodeFault { kind, place }
}
