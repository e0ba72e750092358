//! Buses: scenarios that are run and reported.
ghost use Rattle.std.specs.Prelude.{◌<◌, ◌≤◌};

use crate::commands::{Program, answered};
use crate::digest::Digest;
use crate::random::Random;
use crate::text::Text;
use crate::traffic::{MOST_PORTS, push_frame, push_offer};
use std::alloc::{AllocError, Global};

/// The greatest number of bit times of a scenario.
const MOST_BITS: u32 = 1_000_000;

/// How many bit times a frame takes on average, with the time until the next one.
const FRAME_TIME: u32 = 125;

/// A bus: the number of its ports, how long it is run, and how many per cent of this time its frames take.
#[derive(Clone, Copy)]
struct Plan {
    ports: u32,
    bits: u32,
    load: u32,
}

impl Plan {
    /// Returns a bus with these numbers, each limited to its range.
    fn new(ports: u32, bits: u32, load: u32) -> Plan {
        Plan {
            ports: ports.clamp(1, MOST_PORTS),
            bits: bits.clamp(1, MOST_BITS),
            load: load.min(100),
        }
    }

    /// Returns how many frames each port has.
    fn frames(&self) -> u32 {
        let busy = u64::from(self.bits) * u64::from(self.load) / 100;
        let frames = busy / u64::from(FRAME_TIME) / u64::from(self.ports.max(1));
        frames.min(u64::from(MOST_BITS)) as u32
    }
}

/// Runs buses to which frames are offered during the run, and buses with long queues.
pub fn run_open(
    alloc: Global,
    random: &mut Random,
    size: u32,
    digest: &mut Digest,
) -> Result<(), AllocError>
    requires { size ≤ 1000 }
{
    for plan in [
        Plan::new(64, 16_000 * size, 100),
        Plan::new(16, 40_000 * size, 80),
        Plan::new(3, 40_000 * size, 60),
        Plan::new(2, 40_000 * size, 95),
    ] {
        run(alloc, open_scenario(alloc, random, plan), digest)?;
    }
    for plan in [
        Plan::new(2, 40_000 * size, 100),
        Plan::new(5, 20_000 * size, 100),
    ] {
        let mut text = head_of(alloc, plan);
        push_queues(&mut text, random, plan);
        run(alloc, text, digest)?;
    }
    Ok(())
}

/// Runs a scenario.
fn run(alloc: Global, scenario: Text, digest: &mut Digest) -> Result<(), AllocError> {
    let text = scenario.finished()?;
    answered(alloc, Program::Canbit, "run", text.as_bytes(), digest)?;
    Ok(())
}

/// Returns a scenario whose frames are offered at times of their own.
fn open_scenario(alloc: Global, random: &mut Random, plan: Plan) -> Text {
    let mut text = Text::new(alloc);
    text.push("version = 2\nbits = ");
    text.push_number(plan.bits);
    text.push("\n");
    for node in 0..plan.ports.min(MOST_PORTS) {
        text.push("\n[[port]]\nlog = 2000\nqueue = [\n");
        for _ in 0..plan.frames() {
            push_offer(&mut text, random, node, plan.bits);
        }
        text.push("]\n");
    }
    text
}

/// Runs buses with hits for all ports and for one.
pub fn run_disturbed(
    alloc: Global,
    random: &mut Random,
    size: u32,
    digest: &mut Digest,
) -> Result<(), AllocError>
    requires { size ≤ 1000 }
{
    for (plan, gap) in [
        (Plan::new(64, 6_000 * size, 100), 1500),
        (Plan::new(16, 16_000 * size, 100), 400),
        (Plan::new(8, 16_000 * size, 80), 60),
        (Plan::new(3, 40_000 * size, 100), 800),
        (Plan::new(2, 40_000 * size, 60), 2500),
    ] {
        let mut text = head_of(alloc, plan);
        push_times(&mut text, random, plan, gap);
        push_attempts(&mut text, random, plan, gap);
        push_views(&mut text, random, plan, gap);
        push_queues(&mut text, random, plan);
        run(alloc, text, digest)?;
    }
    Ok(())
}

/// Returns the first lines of a scenario whose frames are all queued before it begins.
fn head_of(alloc: Global, plan: Plan) -> Text {
    let mut text = Text::new(alloc);
    text.push("version = 1\nbits = ");
    text.push_number(plan.bits);
    text.push("\n");
    text
}

/// Appends times of hits for all ports, on average 2 · `gap` bit times apart.
fn push_times(text: &mut Text, random: &mut Random, plan: Plan, gap: u32) {
    text.push("at = [\n");
    let mut time = random.below(gap.max(1));
    for _ in 0..plan.bits {
        if time >= plan.bits.min(MOST_BITS) {
            break;
        }
        text.push_number(time);
        text.push(",\n");
        time += 1 + random.below(gap.clamp(1, MOST_BITS) * 4);
    }
    text.push("]\n");
}

/// Appends hits in attempts.
fn push_attempts(text: &mut Text, random: &mut Random, plan: Plan, gap: u32) {
    text.push("in = [\n");
    for attempt in 0..plan.bits / FRAME_TIME {
        if random.is_one_in(1 + gap.min(MOST_BITS) / 64) {
            push_pair(text, attempt, 1 + random.below(100));
        }
    }
    text.push("]\n");
}

/// Appends a list of two numbers.
fn push_pair(text: &mut Text, first: u32, second: u32) {
    text.push("[");
    text.push_number(first);
    text.push(", ");
    text.push_number(second);
    text.push("],\n");
}

/// Appends times of hits for one port.
fn push_views(text: &mut Text, random: &mut Random, plan: Plan, gap: u32) {
    text.push("view = [\n");
    let mut time = random.below(gap.max(1));
    for _ in 0..plan.bits {
        if time >= plan.bits.min(MOST_BITS) {
            break;
        }
        push_pair(text, time, random.below(plan.ports.max(1)));
        time += 1 + random.below(gap.clamp(1, MOST_BITS) * 4);
    }
    text.push("]\n");
}

/// Appends the ports, each with its queue.
fn push_queues(text: &mut Text, random: &mut Random, plan: Plan) {
    for node in 0..plan.ports.min(MOST_PORTS) {
        text.push("\n[[port]]\nlog = 5000\nqueue = [\n");
        for _ in 0..plan.frames() {
            text.push("\"");
            push_frame(text, random, node);
            text.push("\",\n");
        }
        text.push("]\n");
    }
}
