//! Meters a second of generated samples, or fills from a wave of them, over and over, for
//! `bench/run.sh` to time.
//!
//! The words are the meter and how many rounds to make. It prints what a plain C program of the same
//! definition prints too: of the filter a checksum of the last round, of the peak the peak, of the
//! wave a checksum of the last piece and of the first samples of all.
#![tactic(auto)]

ghost use Rattle.std.specs.Prelude.{◌<◌, IfOk, All};
ghost use Rattle.lib_base.specs.Sounds.{IsSample};

mod waves;

use anyhow::{Result, bail};
use k_filter::Filter;
use std::alloc::{AllocError, Global};
use std::env;
use true_peak::PeakMeter;
use wave_chunks::WaveSound;
use waves::{fill_rounds, stereo_noise};

/// How many samples a round has.
const ROUND: usize = 48_000;

fn main(rt: HostRuntime) -> Result<()> {
    let alloc = rt.alloc();
    let words: Vec<String> = env::args(&rt)?.skip(1).collect(alloc)?;
    let [meter, rounds] = words.as_slice() else {
        bail!("usage: bench_meters METER ROUNDS");
    };
    let rounds: u32 = rounds.as_str().parse()?;
    let samples = noise(alloc, ROUND)?;
    let checksum = match meter.as_str() {
        "filter" => filtered(alloc, samples.as_slice(), rounds)?,
        "peak" => peak_of_rounds(samples.as_slice(), rounds),
        "fading" => peak_of_rounds(faded(alloc, samples.as_slice())?.as_slice(), rounds),
        "fill16" => filled(alloc, 16, rounds)?,
        "fill24" => filled(alloc, 24, rounds)?,
        _ => bail!("no such meter"),
    };
    println!(rt; "{checksum}")?;
    Ok(())
}

/// Noise of 16 bits, by the linear congruential generator of Numerical Recipes.
fn noise(alloc: Global, count: usize) -> Result<Vec<i32>, AllocError>
    ensures { IfOk result (λ v. All (IsSample 16) v.items) }
{
    let mut samples = Vec::new(alloc);
    let mut state = 1u32;
    'samples: for _ in 0..count {
        state = state.wrapping_mul(1_664_525).wrapping_add(1_013_904_223);
        samples.push(upper_half(state))?;
    }
    Ok(samples)
}

fn upper_half(state: u32) -> i32
    ensures { IsSample 16 result }
{
    (state >> 16) as i32 - 32_768
}

/// The samples, halved every 1,500 of them, and loud again every 12,000.
fn faded(alloc: Global, samples: &[i32]) -> Result<Vec<i32>, AllocError>
    requires { All (IsSample 16) samples.now }
    ensures { IfOk result (λ v. All (IsSample 16) v.items) }
{
    let mut faded = Vec::new(alloc);
    for (place, sample) in samples.iter().enumerate() {
        faded.push(halved(*sample, (place % 12_000 / 1_500) as u32))?;
    }
    Ok(faded)
}

fn halved(sample: i32, times: u32) -> i32
    requires sample { IsSample 16 sample }
    requires times { times < 8 }
    ensures { IsSample 16 result }
{
    sample >> times
}

/// Feeds the samples to one filter so many times over.
fn filtered(alloc: Global, samples: &[i32], rounds: u32) -> Result<u64, AllocError>
    requires { All (IsSample 16) samples.now }
{
    let mut filter = Filter::new(48_000);
    let mut out = vec![in alloc; 0; samples.len()]?;
    for _ in 0..rounds {
        filter.feed(samples, 16, out.as_mut_slice());
    }
    Ok(checksum(out.as_slice()))
}

/// Fills from a wave of so many bits a sample, so many times over.
fn filled(alloc: Global, depth: u8, rounds: u32) -> Result<u64> {
    let bytes = stereo_noise(alloc, depth)?;
    let Ok(wave) = wave_chunks::read(alloc, bytes.as_slice()) else {
        bail!("no wave");
    };
    let sound = WaveSound::over(bytes.as_slice(), &wave);
    let (last, sum) = fill_rounds(alloc, &sound, rounds)?;
    Ok(checksum(last.as_slice()).wrapping_add(sum))
}

/// The peak of the samples so many times over.
fn peak_of_rounds(samples: &[i32], rounds: u32) -> u64
    requires { All (IsSample 16) samples.now }
{
    let mut meter = PeakMeter::new();
    for _ in 0..rounds {
        meter.feed(samples, 16);
    }
    meter.finish()
}

fn checksum(values: &[i32]) -> u64 {
    values.iter().fold(0u64, |sum, value| {
        let bits = u32::from_le_bytes(value.to_le_bytes());
        sum.wrapping_mul(31).wrapping_add(u64::from(bits))
    })
}
