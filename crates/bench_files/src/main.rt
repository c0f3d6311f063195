//! Accepts and measures a file of either kind, over and over by so many workers, for `bench/files.sh`
//! to time.
//!
//! The words are the file's path, workers and rounds. For each round it prints the frames, the peak and
//! a checksum of the energies, or the rule that the file breaks and its place. The word `none` stands
//! for no file.
#![tactic(auto)]

ghost use Rattle.std.specs.Prelude.{◌≤◌};
ghost use Rattle.lib_base.specs.declared.limits.TheConstants.{MOST_WORKERS};

use anyhow::{Result, bail};
use lib_base::{MOST_WORKERS, Measured, Refused};
use measure_pool::{OpenGate, measure};
use std::alloc::Global;
use std::marker::Sync;
use std::thread::Threads;
use std::{env, fs};
use tag_writer::{AnySound, accept};

fn main(rt: HostRuntime) -> Result<()> {
    let alloc = rt.alloc();
    let words: Vec<String> = env::args(&rt)?.skip(1).collect(alloc)?;
    match words.as_slice() {
        [path, workers, rounds] => {
            let bytes = fs::read(&rt, path.as_str())?;
            let workers: u32 = workers.as_str().parse()?;
            let rounds: u32 = rounds.as_str().parse()?;
            for _ in 0..rounds {
                let line = round(&rt, alloc, bytes.as_slice(), workers)?;
                println!(rt; "{line}")?;
            }
        }
        [word] if word.as_str() == "none" => println!(rt; "no file")?,
        _ => bail!("usage: bench_files PATH WORKERS ROUNDS, or bench_files none"),
    }
    Ok(())
}

/// What is told of a file in one round.
fn round<R: Threads + Sync>(rt: &R, alloc: Global, bytes: &[u8], workers: u32) -> Result<String> {
    match import(rt, alloc, bytes, workers.clamp(1, MOST_WORKERS)) {
        Ok(found) => Ok(format!(in alloc; "{} {} {}", found.frames, found.peak, checksum(&found))?),
        Err(Refused::Broken(broken)) => Ok(format!(in alloc;
            "{} at {}",
            broken.rule, broken.place
        )?),
        Err(Refused::Memory) => bail!("want of memory"),
    }
}

/// Accepts a file and measures its sound, as an import does.
fn import<R: Threads + Sync>(
    rt: &R,
    alloc: Global,
    bytes: &[u8],
    workers: u32,
) -> Result<Measured, Refused>
    requires some { 1 ≤ workers }
    requires most { workers ≤ MOST_WORKERS }
{
    let accepted = accept(alloc, bytes)?;
    let sound = AnySound::over(bytes, &accepted);
    let found = measure(rt, alloc, &sound, workers, &OpenGate)?;
    Ok(found)
}

/// A number that a change of any energy would change.
fn checksum(found: &Measured) -> u64 {
    found.energies.as_slice().iter().fold(0u64, |sum, energy| {
        let low = (*energy % (1 << 61)) as u64;
        sum.wrapping_mul(31).wrapping_add(low)
    })
}
