//! Decodes a block of generated FLAC data over and over, or reads a FLAC file, for `bench/run.sh` to
//! time; and tells the MD5 of a file's samples, for `scripts/ordinary-flacs.sh` to compare.
//!
//! The words are what to decode and how many rounds to make: it prints a checksum of the last round,
//! which a plain C program of the same definition prints too. Or they are `samples`, `read` or `fill`
//! and a file's path: it prints the MD5 of its samples, how many each channel has, or a checksum; of
//! what is no FLAC file it prints the rule that is broken and its place.
#![tactic(auto)]

mod bits;
mod files;
mod noise;
mod prediction;

use anyhow::{Result, bail};
use lib_base::Refused;
use std::alloc::Global;
use std::{env, fs};

fn main(rt: HostRuntime) -> Result<()> {
    let alloc = rt.alloc();
    let words: Vec<String> = env::args(&rt)?.skip(1).collect(alloc)?;
    let [kind, what] = words.as_slice() else {
        bail!("usage: bench_flac KIND ROUNDS, or bench_flac samples|read|fill PATH");
    };
    let answer = match kind.as_str() {
        "samples" | "read" | "fill" => {
            let bytes = fs::read(&rt, what.as_str())?;
            of_file(alloc, kind.as_str(), bytes.as_slice())?
        }
        _ => format!(in alloc;
            "{}",
            of_rounds(alloc, kind.as_str(), what.as_str().parse()?)?
        )?,
    };
    println!(rt; "{answer}")?;
    Ok(())
}

/// What is told of a file.
fn of_file(alloc: Global, kind: &str, bytes: &[u8]) -> Result<String> {
    let told = match kind {
        "samples" => match files::samples_digest(alloc, bytes) {
            Ok(digest) => Ok(hex::encode(alloc, digest.as_slice())?),
            Err(refused) => Err(refused),
        },
        "read" => match files::frames(alloc, bytes) {
            Ok(frames) => Ok(format!(in alloc; "{frames}")?),
            Err(refused) => Err(refused),
        },
        _ => match files::filled(alloc, bytes) {
            Ok(sum) => Ok(format!(in alloc; "{sum}")?),
            Err(refused) => Err(refused),
        },
    };
    match told {
        Ok(text) => Ok(text),
        Err(Refused::Broken(broken)) => Ok(format!(in alloc;
            "{} at {}",
            broken.rule, broken.place
        )?),
        Err(Refused::Memory) => bail!("want of memory"),
    }
}

/// The checksum of the last of so many rounds.
fn of_rounds(alloc: Global, kind: &str, rounds: u32) -> Result<u64> {
    match kind {
        "fixed" => prediction::fixed(alloc, rounds),
        "linear8" => prediction::linear(alloc, 8, rounds),
        "linear12" => prediction::linear(alloc, 12, rounds),
        "linear32" => prediction::linear(alloc, 32, rounds),
        "rice4" => bits::rice(alloc, 4, 80_000, rounds),
        "rice10" => bits::rice(alloc, 10, 40_000, rounds),
        "crc16" => bits::frame_check(alloc, rounds),
        _ => bail!("no such kind"),
    }
}
