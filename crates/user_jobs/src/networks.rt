//! Networks of messages, and their worst-case response times.
ghost use Rattle.std.specs.Prelude.{◌<◌, ◌≤◌};

use crate::commands::{Program, answered};
use crate::digest::Digest;
use crate::random::Random;
use crate::text::Text;
use std::alloc::{AllocError, Global};

/// The greatest number of messages of a network.
const MOST_MESSAGES: u32 = 512;

/// A network: the number of its messages, their load in per cent, and the spacing of hits, or 0 for no hits. The load
/// of one message is at most `spread` times that of another.
#[derive(Clone, Copy)]
struct Plan {
    messages: u32,
    load: u32,
    spacing: u32,
    spread: u32,
}

/// Runs `canplan` on some networks.
pub fn plan_networks(
    alloc: Global,
    random: &mut Random,
    size: u32,
    digest: &mut Digest,
) -> Result<(), AllocError>
    requires { size ≤ 1000 }
{
    let most = (21 * size).min(MOST_MESSAGES);
    for (share, load, spacing, spread) in [
        (1, 80, 0, 100),
        (1, 95, 0, 10),
        (1, 105, 0, 100),
        (1, 85, 20_000, 30),
        (2, 99, 0, 200),
        (2, 94, 50_000, 20),
        (4, 98, 0, 50),
        (8, 97, 0, 10),
    ] {
        let network = Plan {
            messages: most / share,
            load,
            spacing,
            spread,
        };
        let text = document(alloc, random, network)?;
        answered(alloc, Program::Canplan, "", text.as_bytes(), digest)?;
    }
    Ok(())
}

/// Returns the document of a network.
fn document(alloc: Global, random: &mut Random, plan: Plan) -> Result<String, AllocError> {
    let mut text = Text::new(alloc);
    text.push("version = 1\n");
    if plan.spacing > 0 {
        text.push("\n[errors]\nburst = 1\nspacing = ");
        text.push_number(plan.spacing);
        text.push("\n");
    }
    let mut shares = Vec::new(alloc);
    let mut whole: u64 = 0;
    for _ in 0..plan.messages.min(MOST_MESSAGES) {
        let share = 1 + random.below(plan.spread.clamp(1, 1000));
        whole = whole.saturating_add(u64::from(share));
        shares.push(share)?;
    }
    for (place, share) in shares.iter().enumerate() {
        push_message(&mut text, random, place, *share, whole, plan.load);
    }
    text.finished()
}

/// Appends a message with its share of the load.
fn push_message(
    text: &mut Text,
    random: &mut Random,
    place: usize,
    share: u32,
    whole: u64,
    load: u32,
) {
    let dlc = random.below(9);
    let extended = random.is_one_in(2);
    let longest = if extended { 80 } else { 55 } + 10 * dlc;
    let apart = (u64::from(longest) * 100)
        .saturating_mul(whole)
        .checked_div(u64::from(share) * u64::from(load));
    let period = apart.unwrap_or(1).clamp(1, 1_000_000_000) as u32;
    let jitter = if random.is_one_in(2) {
        random.below(period.max(1)) / 4
    } else {
        0
    };
    text.push("\n[[message]]\nframe = \"");
    let number = place.min(2047) as u32;
    if extended {
        text.push_extended(number << 18);
    } else {
        text.push_standard(number);
    }
    text.push(" D\"\ndlc = ");
    text.push_number(dlc);
    text.push("\nperiod = ");
    text.push_number(period);
    text.push("\njitter = ");
    text.push_number(jitter);
    text.push("\n");
}
