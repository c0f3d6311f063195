//! A database as a keeper.
use crate::batches::batch;
use crate::{remove_database, text};
use keeper_real::SqliteKeeper;
use keeper_store::{Keeper, MemKeeper, Tables};
use std::alloc::Global;
use std::{fs, io};

pub fn run(rt: &HostRuntime) -> io::Result<()> {
    println!(rt; "batches outlive their keepers")?;
    outlive(rt)?;
    println!(rt; "a batch whose second row has 2^63 frames, and a second keeper")?;
    refuse(rt)?;
    println!(rt; "what is no database, and a new one beside takes")?;
    refuse_paths(rt)
}

/// A keeper of these rows in memory, which is proved to make each change.
fn in_memory(alloc: Global) -> MemKeeper {
    MemKeeper::new(Tables::empty(alloc), Vec::new(alloc))
}

/// New keepers over one path, each dropped or closed after its batch.
fn outlive(rt: &HostRuntime) -> io::Result<()> {
    let path = "outlives.db";
    remove_database(rt, path)?;
    let mut memory = in_memory(rt.alloc());
    for (frames, closes) in [((1 << 63) - 1, false), (1, true), (2, true)] {
        take_turn(rt, path, &mut memory, frames, closes)?;
    }
    remove_database(rt, path)
}

/// A new keeper takes a batch as the one in memory does, and is closed, or dropped as it is.
fn take_turn(
    rt: &HostRuntime,
    path: &str,
    memory: &mut MemKeeper,
    frames: u64,
    closes: bool,
) -> io::Result<()> {
    let alloc = rt.alloc();
    let mut keeper = SqliteKeeper::at(rt, alloc, text(alloc, path)?);
    tell_load(rt, &mut keeper, memory)?;
    tell_apply(rt, &mut keeper, memory, frames)?;
    println!(rt; "faults {}", keeper.faults())?;
    if closes {
        println!(rt; "close {:?}", keeper.close())?;
    }
    Ok(())
}

/// Tells whether a keeper loads what the other does.
fn tell_load<K: Keeper, M: Keeper>(
    rt: &HostRuntime,
    keeper: &mut K,
    other: &mut M,
) -> io::Result<()> {
    let alloc = rt.alloc();
    let loaded = load_text(alloc, keeper)?;
    if loaded == load_text(alloc, other)? {
        println!(rt; "load as in memory")
    } else {
        println!(rt; "load {loaded}")
    }
}

/// What a keeper loads, or why it does not, as it prints.
fn load_text<K: Keeper>(alloc: Global, keeper: &mut K) -> io::Result<String> {
    match keeper.load() {
        Ok(tables) => Ok(format!(in alloc; "{tables:?}")?),
        Err(why) => Ok(format!(in alloc; "{why:?}")?),
    }
}

/// Both keepers take a batch. Tells what the first answers.
fn tell_apply<K: Keeper, M: Keeper>(
    rt: &HostRuntime,
    keeper: &mut K,
    other: &mut M,
    frames: u64,
) -> io::Result<()> {
    let batch = batch(rt.alloc(), frames)?;
    println!(rt;
        "apply {:?}, in memory {:?}",
        keeper.apply(&batch),
        other.apply(&batch)
    )
}

fn refuse(rt: &HostRuntime) -> io::Result<()> {
    let alloc = rt.alloc();
    let path = "refused.db";
    remove_database(rt, path)?;
    let mut keeper = SqliteKeeper::at(rt, alloc, text(alloc, path)?);
    tell_apply(rt, &mut keeper, &mut in_memory(alloc), 1 << 63)?;
    println!(rt; "faults {}", keeper.faults())?;
    let mut memory = in_memory(alloc);
    tell_load(rt, &mut keeper, &mut memory)?;
    tell_second(rt, path)?;
    tell_apply(rt, &mut keeper, &mut memory, 1)?;
    tell_load(rt, &mut keeper, &mut memory)?;
    println!(rt; "faults {}", keeper.faults())?;
    drop(keeper);
    remove_database(rt, path)
}

/// A keeper over a database that another has open.
fn tell_second(rt: &HostRuntime, path: &str) -> io::Result<()> {
    let alloc = rt.alloc();
    let mut second = SqliteKeeper::at(rt, alloc, text(alloc, path)?);
    println!(rt; "second {}", load_text(alloc, &mut second)?)?;
    println!(rt; "second faults {}", second.faults())
}

fn refuse_paths(rt: &HostRuntime) -> io::Result<()> {
    let _ = fs::remove_dir_all(rt, "takes");
    fs::create_dir(rt, "takes")?;
    fs::write(rt, "takes/1.bin", "take")?;
    fs::write(rt, "text.db", "a text")?;
    remove_database(rt, "new.db")?;
    for path in ["text.db", "takes", "new.db"] {
        tell_refused(rt, path)?;
    }
    remove_database(rt, "text.db")?;
    remove_database(rt, "new.db")?;
    fs::remove_dir_all(rt, "takes")
}

/// A load that is refused, and asked for again: an opening is not tried twice.
fn tell_refused(rt: &HostRuntime, path: &str) -> io::Result<()> {
    let alloc = rt.alloc();
    let keeper = SqliteKeeper::at(rt, alloc, text(alloc, path)?);
    let mut keeper = keeper.beside(text(alloc, "takes")?);
    let first = load_text(alloc, &mut keeper)?;
    let again = load_text(alloc, &mut keeper)?;
    println!(rt; "{path} {first} {again}, faults {}", keeper.faults())
}
