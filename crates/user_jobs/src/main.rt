//! Jobs that take users of these crates time, each on generated inputs. With the same seed, two builds can be timed
//! side by side and their output compared.
//!
//!     $ user_jobs bus 1 25
//!     bus 8c9a0b4cd3b0a7f1
//!
//! The words are a job, a seed below 2^32, and a size; `all` does each job. Each job writes a line with a digest of all
//! its output. Nothing but the words is read.
//!
//! | Job | What is done |
//! |---|---|
//! | `bus` | `canbit run`, with frames that are offered during the run, and with long queues |
//! | `disturbed` | `canbit run`, with hits for all ports and for one |
//! | `ports` | ports driven bit by bit, and what each port of a scenario does in each bit time |
//! | `plan` | `canplan` |
//! | `texts` | `canbit decode`, `encode` and `check` |
//! | `kit` | `canhold expect`, `judge` and `play` |
//!
//! | File | What it has |
//! |---|---|
//! | `random.rt` | [`Random`](random::Random), pseudo-random numbers |
//! | `digest.rt` | [`Digest`](digest::Digest), a number by which outputs are compared |
//! | `text.rt` | [`Text`](text::Text), a text that is written piece by piece |
//! | `traffic.rt` | frames, and their wires |
//! | `commands.rt` | a call of a program on a text |
//! | `buses.rt`, `ports.rt`, `networks.rt`, `traces.rt`, `kits.rt` | the jobs |
#![tactic(auto)]

ghost use Rattle.std.specs.Prelude.{◌≤◌};

mod buses;
mod commands;
mod digest;
mod kits;
mod networks;
mod ports;
mod random;
mod text;
mod traces;
mod traffic;

use digest::Digest;
use random::Random;
use std::alloc::{AllocError, Global};
use std::io;

/// A job.
#[derive(Clone, Copy)]
enum Job {
    Bus,
    Disturbed,
    Ports,
    Plan,
    Texts,
    Kit,
}

impl Job {
    /// Returns the word that names it.
    fn name(self) -> &'static str {
        match self {
            Job::Bus => "bus",
            Job::Disturbed => "disturbed",
            Job::Ports => "ports",
            Job::Plan => "plan",
            Job::Texts => "texts",
            Job::Kit => "kit",
        }
    }
}

/// All jobs.
const JOBS: [Job; 6] = [
    Job::Bus,
    Job::Disturbed,
    Job::Ports,
    Job::Plan,
    Job::Texts,
    Job::Kit,
];

/// The greatest size.
const MOST: u32 = 1000;

/// The greatest size of a round. A larger job has several rounds.
const ROUND: u32 = 25;

fn main(rt: HostRuntime) -> io::Result<()> {
    let alloc = rt.alloc();
    let words: Vec<String> = std::env::args(&rt)?.collect(alloc)?;
    let seed = number(&words, 2, u32::MAX);
    let size = number(&words, 3, MOST);
    let Some(asked) = words.get(1) else {
        return println!(rt; "user_jobs JOB SEED SIZE");
    };
    for job in JOBS {
        let name = job.name();
        if asked.as_str() == name || asked.as_str() == "all" {
            let value = done(alloc, job, seed, size)?;
            println!(rt; "{name} {value:016x}")?;
        }
    }
    Ok(())
}

/// Returns the number in the word at this place, or 1 if there is none, but at most `most`.
fn number(words: &[String], place: usize, most: u32) -> u32
    ensures { result ≤ most }
{
    let told: Option<u32> = match words.get(place) {
        Some(word) => word.parse().ok(),
        None => None,
    };
    told.unwrap_or(1).min(most)
}

/// Does a job, and returns the digest of its output.
fn done(alloc: Global, job: Job, seed: u32, size: u32) -> Result<u64, AllocError>
    requires { size ≤ 1000 }
{
    let mut random = Random::new(u64::from(seed));
    let mut digest = Digest::new();
    match job {
        Job::Ports => ports::drive(alloc, &mut random, size, &mut digest)?,
        Job::Kit => kits::hold(alloc, &mut random, size, &mut digest)?,
        _ => {
            for _ in 0..size.div_ceil(ROUND) {
                do_round(alloc, job, &mut random, size.min(ROUND), &mut digest)?;
            }
        }
    }
    Ok(digest.value())
}

/// Does a round of a job.
fn do_round(
    alloc: Global,
    job: Job,
    random: &mut Random,
    size: u32,
    digest: &mut Digest,
) -> Result<(), AllocError>
    requires { size ≤ 25 }
{
    match job {
        Job::Bus => buses::run_open(alloc, random, size, digest),
        Job::Disturbed => buses::run_disturbed(alloc, random, size, digest),
        Job::Plan => networks::plan_networks(alloc, random, size, digest),
        Job::Texts => traces::read(alloc, random, size, digest),
        Job::Ports | Job::Kit => Ok(()),
    }
}
