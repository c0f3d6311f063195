//! Answers an album of 256 recordings over and over, for `bench/albums.sh` to time.
//!
//! The words are the question, `loudness` or `range`, and how many rounds to make. It prints the sum
//! of the answers, which a plain C program of the same definitions prints too.
#![tactic(auto)]

ghost use Rattle.std.specs.Prelude.{◌≡◌, ◌≤◌, ◌<◌, length, IfOk, All};
ghost use Rattle.lib_base.specs.declared.limits.TheConstants.{GREATEST_ENERGY};

use album_merge::{Album, TrackTally};
use anyhow::{Result, bail};
use lib_base::{Energies, Measured, Memory, Steps};
use std::alloc::Global;
use std::env;
use std::marker::{Brand, Sync};
use std::sync::ledger::{Blank, Ledger};
use std::thread::Threads;

/// How many recordings the album has.
const RECORDINGS: u32 = 256;

/// How many segments each of them has.
const SEGMENTS: usize = 60;

fn main(rt: HostRuntime) -> Result<()> {
    let alloc = rt.alloc();
    let words: Vec<String> = env::args(&rt)?.skip(1).collect(alloc)?;
    let [question, rounds] = words.as_slice() else {
        bail!("usage: bench_albums QUESTION ROUNDS");
    };
    let rounds: u32 = rounds.as_str().parse()?;
    let Ok(album) = album_of(&rt, alloc) else {
        bail!("want of memory");
    };
    let ranges = question.as_str() == "range";
    let sum = answers::<Brand>(&album, ranges, rounds, Blank::new(1));
    println!(rt; "{sum}")?;
    Ok(())
}

/// The album, of energies by the linear congruential generator of Numerical Recipes; each recording
/// fades by half of the one before, and every sixteenth is loud again.
fn album_of<R: Threads + Sync>(rt: &R, alloc: Global) -> Result<Album, Memory> {
    let mut album = Album::new(alloc)?;
    let mut state = 1u32;
    for id in 0..RECORDINGS {
        let measured = Measured {
            channels: 1,
            depth: 16,
            frames: 4_800 * SEGMENTS as u64,
            energies: energies_of(alloc, &mut state, id % 16)?,
            peak: 1 << 36,
        };
        let tally = TrackTally::make(rt, alloc, &measured)?;
        let _ = album.remove(id);
        if album.len() < 256 {
            album.reserve(1)?;
            album.add(id, tally);
        }
    }
    Ok(album)
}

/// The energies of a recording's segments.
fn energies_of(alloc: Global, state: &mut u32, fading: u32) -> Result<Energies, Memory>
    requires { fading < 16 }
    ensures count { IfOk result (λ energies. length energies ≡ 60) }
    ensures within { IfOk result (λ energies. All (λ e. e ≤ GREATEST_ENERGY) energies) }
{
    let mut energies = Vec::new(alloc);
    for segment in 0..SEGMENTS {
        *state = state.wrapping_mul(1_664_525).wrapping_add(1_013_904_223);
        energies.push(energy_of(*state, fading))?;
    }
    Ok(Energies::of(energies))
}

fn energy_of(state: u32, fading: u32) -> u128
    requires { fading < 16 }
    ensures { result ≤ GREATEST_ENERGY }
{
    (u128::from(state >> 16) << 57) >> fading
}

/// The sum of so many answers.
fn answers<L: Ledger>(album: &Album, ranges: bool, rounds: u32, blank: Blank) -> i64
    requires name { blank.name ≡ L.name }
    requires parts { blank.parts ≡ L.parts }
    requires some { 0 < blank.parts }
{
    let mut steps: Steps<L> = Steps::new(blank);
    let mut sum = 0i64;
    for _round in 0..rounds {
        let answer = if ranges {
            album.range(&mut steps)
        } else {
            album.loudness(&mut steps)
        };
        sum = sum.wrapping_add(i64::from(answer.unwrap_or(0)));
    }
    sum
}
