//! The run of a case.

use crate::cases::{Case, Failing};
use crate::pieces::Pieces;
use anyhow::{Result, bail};
use keeper_store::{MemKeeper, MemVault};
use lib_base::{Bytes, MemDoor, MemSink, MemSource};
use report_cli::run;
use std::alloc::Global;
use std::thread::Threads;

/// The exit status of a run, and the objects that it leaves.
#[derive(Drop)]
pub struct Outcome {
    pub status: u8,
    pub sink: MemSink,
    pub keeper: MemKeeper,
    pub vault: MemVault,
    pub door: MemDoor,
}

/// The objects over which a case runs, but for the door.
#[derive(Drop)]
struct Objects {
    source: Pieces<MemSource>,
    sink: Pieces<MemSink>,
    keeper: MemKeeper,
    vault: MemVault,
}

/// Runs a case.
pub fn run_case<R: Threads + Sync>(rt: &R, alloc: Global, case: Case<'_>) -> Result<Outcome> {
    let Case {
        words,
        inputs,
        next: _,
        piece,
        room,
        brief: _,
        failing,
        tables,
    } = case;
    let Failing {
        source,
        sink,
        keeper,
        vault,
        door,
    } = failing;
    let (input, waiting) = parted(alloc, inputs)?;
    let objects = Objects {
        source: Pieces {
            inner: MemSource::new(input, source),
            most: piece,
        },
        sink: Pieces {
            inner: MemSink::new(alloc, sink),
            most: room,
        },
        keeper: MemKeeper::new(tables, keeper),
        vault: MemVault::new(alloc, vault),
    };
    run_over(rt, alloc, words.as_slice(), objects, waiting, door)
}

/// The input of the source, and those of the connections.
fn parted(alloc: Global, inputs: Vec<Vec<u8>>) -> Result<(Bytes, Vec<Bytes>)> {
    let mut first = None;
    let mut others = Vec::new(alloc);
    for input in inputs {
        if first.is_none() {
            first = Some(Bytes::of(input));
        } else {
            others.push(Bytes::of(input))?;
        }
    }
    match first {
        Some(first) => Ok((first, others)),
        None => bail!("no input"),
    }
}

/// Runs the words over these objects, and a door at which these connections wait and of which these
/// calls fail.
fn run_over<R: Threads + Sync>(
    rt: &R,
    alloc: Global,
    words: &[String],
    objects: Objects,
    waiting: Vec<Bytes>,
    failing: Vec<u32>,
) -> Result<Outcome> {
    let Objects {
        mut source,
        mut sink,
        mut keeper,
        mut vault,
    } = objects;
    let Ok(mut door) = MemDoor::new(alloc, waiting, failing) else {
        bail!("want of memory");
    };
    let status = run(
        rt,
        alloc,
        words,
        &mut source,
        &mut sink,
        &mut keeper,
        &mut vault,
        &mut door,
    );
    Ok(Outcome {
        status,
        sink: sink.inner,
        keeper,
        vault,
        door,
    })
}
