//! The jobs that a user of the program or of the library waits for, so that they can be timed.
//!
//! ```text
//! session_bench long ROUNDS SEED      normalise, list, explain: recordings of a bench, and of units that are flashed
//! session_bench tools ROUNDS SEED     normalise, list, find: logs that other tools wrote
//! session_bench pairs ROUNDS SEED     compare, and the page of two logs where they differ
//! session_bench short ROUNDS SEED     the library: thousands of short recordings against kept ones
//! session_bench page ROUNDS SEED      report, messages and their objects: one session for a reader
//! session_bench awkward ROUNDS SEED   dropped and lost frames, strays, a request without an answer, many identifiers
//! ```
//!
//! The logs are made from the seed, and changed before each call, so that no call sees one twice. Each line tells how many
//! answers there were, how many of them were faults, and a digest of all results. Without words each workload is done once
//! over logs that are a hundred times shorter. `bench/run` measures.
#![tactic(auto)]

mod calls;
mod dice;
mod digest;
mod recorder;
mod session;
mod workloads;

use can_log::Id;
use digest::Digest;
use std::alloc::AllocError;
use std::{env, io};
use trace_log::{Config, LARGEST_LIMIT};
use workloads::Task;

/// All workloads.
const NAMES: [&str; 6] = ["long", "tools", "pairs", "short", "page", "awkward"];

/// What the workload of this name comes to, or `None` where there is no such workload.
fn work(name: &str, task: Task<'_>) -> Result<Option<Digest>, AllocError> {
    Ok(Some(match name {
        "long" => workloads::long(task)?,
        "tools" => workloads::tools(task)?,
        "pairs" => workloads::pairs(task)?,
        "short" => workloads::short(task)?,
        "page" => workloads::page(task)?,
        "awkward" => workloads::awkward(task)?,
        _ => return Ok(None),
    }))
}

/// The number that the word spells, 0 where it spells none.
fn number(word: Option<String>) -> u64 {
    word.and_then(|word| word.as_str().parse().ok())
        .unwrap_or(0)
}

/// Does a workload, and tells what it comes to.
fn tell(rt: &HostRuntime, name: &str, task: Task<'_>) -> io::Result<()> {
    match work(name, task)? {
        Some(digest) => {
            let (answers, faults, sum) = digest.result();
            println!(rt; "{name} {answers} {faults} {sum:016x}")
        }
        None => println!(rt; "{name} is no workload"),
    }
}

fn main(rt: HostRuntime) -> io::Result<()> {
    let Ok(config) = Config::new(Id::Std(0x7E0), Id::Std(0x7E8), LARGEST_LIMIT) else {
        return Ok(());
    };
    let mut task = Task {
        alloc: rt.alloc(),
        config: &config,
        seed: 1,
        rounds: 4,
        parts: 100,
    };
    let mut words = env::args(&rt)?;
    let _ = words.next();
    let Some(name) = words.next() else {
        for name in NAMES {
            tell(&rt, name, task)?;
        }
        return Ok(());
    };
    task.rounds = number(words.next()).min(1_000_000) as u32;
    task.seed = number(words.next());
    task.parts = 1;
    tell(&rt, name.as_str(), task)
}
