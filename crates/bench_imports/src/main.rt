//! Changes a library in memory over and over, for `bench/imports.sh` to time what its requests cost.
//!
//! The words are the work and how many times to do it. Of a wave of one segment, `measure` measures it
//! alone, `import` imports it as ever new recordings, and `ask` imports them and then asks for each one
//! ten times. `albums` adds albums, and `tokens` adds them and then looks for each token ten times.
//! `regroup` moves a recording to and fro between two albums of 200 recordings with 60 segments each.
//! It prints how many segments were measured, how many changes were accepted, how many recordings were
//! found, or how many tokens were kept.
#![tactic(auto)]

ghost use Rattle.std.specs.Prelude.{◌≡◌, ◌<◌};

mod libraries;
mod waves;

use anyhow::{Result, bail};
use lib_base::{Memory, Steps};
use libraries::Opened;
use measure_pool::{OpenGate, measure};
use std::alloc::Global;
use std::env;
use std::marker::{Brand, Sync};
use std::sync::ledger::{Blank, Ledger};
use std::thread::Threads;
use wave_chunks::WaveSound;
use waves::noise;

/// How often each recording is asked for, and each token is looked for.
const ROUNDS: u32 = 10;

/// How many recordings each of two albums has.
const MEMBERS: u32 = 200;

/// How many segments each of them has.
const SEGMENTS: u32 = 60;

fn main(rt: HostRuntime) -> Result<()> {
    let alloc = rt.alloc();
    let words: Vec<String> = env::args(&rt)?.skip(1).collect(alloc)?;
    let [work, times] = words.as_slice() else {
        bail!("usage: bench_imports WORK TIMES");
    };
    let times: u32 = times.as_str().parse()?;
    let rounds = rounds_of(work.as_str());
    let done = match work.as_str() {
        "measure" => measures(&rt, alloc, times),
        "albums" | "tokens" => {
            albums::<HostRuntime, Brand>(&rt, alloc, times, rounds, Blank::new(1))
        }
        "regroup" => regroups::<HostRuntime, Brand>(&rt, alloc, times, Blank::new(1)),
        _ => imports::<HostRuntime, Brand>(&rt, alloc, times, rounds, Blank::new(1)),
    };
    let Ok(done) = done else {
        bail!("want of memory");
    };
    println!(rt; "{done}")?;
    Ok(())
}

/// In how many rounds the recordings are asked for, or the tokens are looked for.
fn rounds_of(work: &str) -> u32 {
    if work == "ask" || work == "tokens" {
        ROUNDS
    } else {
        0
    }
}

/// Measures the wave so many times, by one worker: how many segments that were.
fn measures<R: Threads + Sync>(rt: &R, alloc: Global, times: u32) -> Result<u64, Memory> {
    let file = noise(alloc, 1)?;
    let Ok(wave) = wave_chunks::read(alloc, file.as_slice()) else {
        return Ok(0);
    };
    let sound = WaveSound::over(file.as_slice(), &wave);
    let mut segments = 0u64;
    for _ in 0..times {
        let found = measure(rt, alloc, &sound, 1, &OpenGate)?;
        segments = segments.wrapping_add(found.energies.as_slice().len() as u64);
    }
    Ok(segments)
}

/// Imports the wave so many times into an empty library: how many imports were accepted. Where there
/// are rounds, each recording is asked for in each of them: how many were found.
fn imports<R: Threads + Sync, L: Ledger>(
    rt: &R,
    alloc: Global,
    times: u32,
    rounds: u32,
    blank: Blank,
) -> Result<u64, Memory>
    requires name { blank.name ≡ L.name }
    requires parts { blank.parts ≡ L.parts }
    requires some { 0 < blank.parts }
{
    let mut steps: Steps<L> = Steps::new(blank);
    let file = noise(alloc, 1)?;
    let mut opened = Opened::new(rt, alloc)?;
    let mut accepted = 0u64;
    for number in 0..times {
        if opened.import(rt, alloc, None, file.as_slice(), number, &mut steps)? {
            accepted = accepted.wrapping_add(1);
        }
    }
    if rounds == 0 {
        return Ok(accepted);
    }
    opened.ask_for_all(times, rounds)
}

/// Adds so many albums to an empty library: how many were accepted. Where there are rounds, each token
/// is looked for in each of them: how often one was kept.
fn albums<R: Threads + Sync, L: Ledger>(
    rt: &R,
    alloc: Global,
    times: u32,
    rounds: u32,
    blank: Blank,
) -> Result<u64, Memory>
    requires name { blank.name ≡ L.name }
    requires parts { blank.parts ≡ L.parts }
    requires some { 0 < blank.parts }
{
    let mut steps: Steps<L> = Steps::new(blank);
    let mut opened = Opened::new(rt, alloc)?;
    let mut counted = 0u64;
    for number in 0..times {
        if opened.add_album(rt, alloc, number, &mut steps)? {
            counted = counted.wrapping_add(1);
        }
    }
    if rounds > 0 {
        counted = 0;
    }
    for _ in 0..rounds {
        counted = counted.wrapping_add(opened.count_kept(alloc, times)?);
    }
    Ok(counted)
}

/// Moves the first recording so many times between two full albums: how many moves were accepted.
fn regroups<R: Threads + Sync, L: Ledger>(
    rt: &R,
    alloc: Global,
    times: u32,
    blank: Blank,
) -> Result<u64, Memory>
    requires name { blank.name ≡ L.name }
    requires parts { blank.parts ≡ L.parts }
    requires some { 0 < blank.parts }
{
    let mut steps: Steps<L> = Steps::new(blank);
    let mut opened = Opened::new(rt, alloc)?;
    fill_albums(rt, alloc, &mut opened, &mut steps)?;
    let mut accepted = 0u64;
    for turn in 0..times {
        let number = turn.wrapping_add(2 + 2 * MEMBERS);
        if opened.regroup(rt, alloc, 1, 2 - turn % 2, number, &mut steps)? {
            accepted = accepted.wrapping_add(1);
        }
    }
    Ok(accepted)
}

/// Adds two albums, and imports recordings into both, under the first tokens.
fn fill_albums<R: Threads + Sync, L: Ledger>(
    rt: &R,
    alloc: Global,
    opened: &mut Opened,
    steps: &mut Steps<L>,
) -> Result<(), Memory> {
    let file = noise(alloc, SEGMENTS)?;
    for number in 0..2 {
        let _ = opened.add_album(rt, alloc, number, steps)?;
    }
    for number in 0..2 * MEMBERS {
        let album = Some(1 + number / MEMBERS);
        let _ = opened.import(rt, alloc, album, file.as_slice(), number + 2, steps)?;
    }
    Ok(())
}
