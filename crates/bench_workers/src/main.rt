//! Measures noise over and over by so many workers, for `bench/workers.sh` to time.
//!
//! The words are how many channels (1, 2 or 6), the bits of a sample (16 or 24), tenths of a second,
//! workers and rounds. It prints the peak and a checksum of the energies.
#![tactic(auto)]

ghost use Rattle.std.specs.Prelude.{◌≡◌, ◌<◌, ◌^◌, ◌⊎◌, IfOk, All, vec_len};
ghost use Rattle.lib_base.specs.Sounds.{IsSample};

use anyhow::bail;
use lib_base::{MOST_WORKERS, Measured, Memory, PcmSound};
use measure_pool::{OpenGate, measure};
use std::alloc::Global;
use std::env;

/// How many frames a tenth of a second has.
const TENTH: u32 = 4_800;

fn main(rt: HostRuntime) -> anyhow::Result<()> {
    let alloc = rt.alloc();
    let words: Vec<String> = env::args(&rt)?.skip(1).collect(alloc)?;
    let [channels, bits, tenths, workers, rounds] = words.as_slice() else {
        bail!("usage: bench_workers CHANNELS BITS TENTHS WORKERS ROUNDS");
    };
    let tenths: u16 = tenths.as_str().parse()?;
    let frames = (u32::from(tenths) * TENTH) as usize;
    let Ok(sound) = noise(alloc, channels.as_str(), depth_of(bits.as_str()), frames) else {
        bail!("want of memory");
    };
    let workers: u32 = workers.as_str().parse()?;
    let rounds: u32 = rounds.as_str().parse()?;
    for _ in 0..rounds {
        let workers = workers.clamp(1, MOST_WORKERS);
        let Ok(found) = measure(&rt, alloc, &sound, workers, &OpenGate) else {
            bail!("want of memory");
        };
        println!(rt; "{} {}", found.peak, checksum(&found))?;
    }
    Ok(())
}

/// The bits of a sample that the word tells: 16, or else 24.
fn depth_of(word: &str) -> u32
    ensures { (result ≡ 16) ⊎ (result ≡ 24) }
{
    if word == "16" { 16 } else { 24 }
}

/// Noise on so many channels: 1, 6, or else 2.
fn noise(alloc: Global, channels: &str, depth: u32, frames: usize) -> Result<PcmSound, Memory>
    requires depth { (depth ≡ 16) ⊎ (depth ≡ 24) }
    requires frames { frames < 2 ^ 60 }
{
    match channels {
        "1" => mono(alloc, depth, frames),
        "6" => six(alloc, depth, frames),
        _ => stereo(alloc, depth, frames),
    }
}

fn checksum(found: &Measured) -> u64 {
    found.energies.as_slice().iter().fold(0u64, |sum, energy| {
        let low = (*energy % (1 << 61)) as u64;
        sum.wrapping_mul(31).wrapping_add(low)
    })
}

/// Noise of a channel, by the linear congruential generator of Numerical Recipes.
fn channel(alloc: Global, seed: u32, depth: u32, frames: usize) -> Result<Vec<i32>, Memory>
    requires { (depth ≡ 16) ⊎ (depth ≡ 24) }
    ensures within { IfOk result (λ v. All (IsSample depth) v.items) }
    ensures count { IfOk result (λ v. vec_len v ≡ frames) }
{
    let mut samples = Vec::with_capacity(alloc, frames)?;
    let mut state = seed;
    'places: for _ in 0..frames {
        state = state.wrapping_mul(1_664_525).wrapping_add(1_013_904_223);
        samples.push(upper_bits(state, depth))?;
    }
    Ok(samples)
}

/// The upper bits of a number, so many of them, as a sample.
fn upper_bits(state: u32, depth: u32) -> i32
    requires { (depth ≡ 16) ⊎ (depth ≡ 24) }
    ensures { IsSample depth result }
{
    if depth == 16 {
        (state >> 16) as i32 - 32_768
    } else {
        (state >> 8) as i32 - 8_388_608
    }
}

/// Noise on one channel.
fn mono(alloc: Global, depth: u32, frames: usize) -> Result<PcmSound, Memory>
    requires depth { (depth ≡ 16) ⊎ (depth ≡ 24) }
    requires frames { frames < 2 ^ 60 }
{
    let mut channels = Vec::new(alloc);
    channels.push(channel(alloc, 1, depth, frames)?)?;
    Ok(PcmSound::new(depth, channels))
}

/// Noise on two channels.
fn stereo(alloc: Global, depth: u32, frames: usize) -> Result<PcmSound, Memory>
    requires depth { (depth ≡ 16) ⊎ (depth ≡ 24) }
    requires frames { frames < 2 ^ 60 }
{
    let mut channels = Vec::new(alloc);
    channels.push(channel(alloc, 1, depth, frames)?)?;
    channels.push(channel(alloc, 2, depth, frames)?)?;
    Ok(PcmSound::new(depth, channels))
}

/// Noise on six channels.
fn six(alloc: Global, depth: u32, frames: usize) -> Result<PcmSound, Memory>
    requires depth { (depth ≡ 16) ⊎ (depth ≡ 24) }
    requires frames { frames < 2 ^ 60 }
{
    let mut channels = Vec::new(alloc);
    channels.push(channel(alloc, 1, depth, frames)?)?;
    channels.push(channel(alloc, 2, depth, frames)?)?;
    channels.push(channel(alloc, 3, depth, frames)?)?;
    channels.push(channel(alloc, 4, depth, frames)?)?;
    channels.push(channel(alloc, 5, depth, frames)?)?;
    channels.push(channel(alloc, 6, depth, frames)?)?;
    Ok(PcmSound::new(depth, channels))
}
