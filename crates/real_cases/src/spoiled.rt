//! Databases whose rows were changed from outside.
use crate::{remove_database, text};
use keeper_real::SqliteKeeper;
use keeper_store::{Keeper, Tables};
use lib_base::Outside;
use sqlite::{Connection, Error, Wary};
use std::io;

/// What is done to the rows of a new library: albums that come in another order, and of each table
/// a row that can't be one.
const CHANGES: [(&str, &str); 13] = [
    (
        "albums in another order",
        "INSERT INTO albums VALUES (2, 'b', 0, 1, 2, NULL, NULL, NULL, 0, -1), \
         (1, 'a', 0, NULL, NULL, NULL, NULL, NULL, 0, NULL)",
    ),
    ("no counters", "DELETE FROM counters"),
    (
        "counters in two rows",
        "INSERT INTO counters VALUES (2, 1, 1, 1)",
    ),
    (
        "a counter of 2^32",
        "UPDATE counters SET next_take = 4294967296",
    ),
    (
        "an album with a negative id",
        "INSERT INTO albums VALUES (-1, 'a', 0, 0, 0, 0, 0, 0, 0, 0)",
    ),
    (
        "an album of -1 frames",
        "INSERT INTO albums VALUES (1, 'a', -1, 0, 0, 0, 0, 0, 0, 0)",
    ),
    (
        "a loudness of 2^31",
        "INSERT INTO albums VALUES (1, 'a', 0, 2147483648, 0, 0, 0, 0, 0, 0)",
    ),
    (
        "a recording of another kind",
        "INSERT INTO recordings VALUES (1, 1, 'a', 1, 'aiff', 1, 16, \
         x'000102030405060708090a0b0c0d0e0f', 0, 0, 0, 0, 0, 0, 0, 0)",
    ),
    (
        "a recording of 256 channels",
        "INSERT INTO recordings VALUES (1, 1, 'a', 1, 'wave', 256, 16, \
         x'000102030405060708090a0b0c0d0e0f', 0, 0, 0, 0, 0, 0, 0, 0)",
    ),
    (
        "a digest of 15 bytes",
        "INSERT INTO recordings VALUES (1, 1, 'a', 1, 'wave', 1, 16, \
         x'000102030405060708090a0b0c0d0e', 0, 0, 0, 0, 0, 0, 0, 0)",
    ),
    (
        "segments of take 2^32",
        "INSERT INTO segments VALUES (4294967296, x'')",
    ),
    (
        "a reply of status 65536",
        "INSERT INTO replies VALUES ('a', x'000102030405060708090a0b0c0d0e0f', 65536, x'')",
    ),
    ("no table of replies", "DROP TABLE replies"),
];

pub fn run(rt: &HostRuntime) -> io::Result<()> {
    println!(rt; "rows that were changed from outside")?;
    for (name, sql) in CHANGES {
        tell_spoiled(rt, "spoiled.db", name, sql)?;
    }
    Ok(())
}

/// Tells what a keeper loads after a change from outside.
fn tell_spoiled(rt: &HostRuntime, path: &str, name: &str, sql: &str) -> io::Result<()> {
    remove_database(rt, path)?;
    let _ = load(rt, path)?;
    if let Err(error) = spoil(rt, path, sql) {
        println!(rt; "not changed: {error}")?;
    }
    println!(rt; "{name}: {}", load(rt, path)?)?;
    remove_database(rt, path)
}

/// What a new keeper loads, and its faults.
fn load(rt: &HostRuntime, path: &str) -> io::Result<String> {
    let alloc = rt.alloc();
    let mut keeper = SqliteKeeper::at(rt, alloc, text(alloc, path)?);
    let loaded = keeper.load();
    let faults = keeper.faults();
    let ids = first_ids(loaded);
    Ok(format!(in alloc; "{ids:?}, faults {faults}")?)
}

/// The first two ids of the albums that were loaded.
fn first_ids(loaded: Result<Tables, Outside>) -> Result<[Option<u32>; 2], Outside> {
    let tables = loaded?;
    let albums = tables.albums.as_slice();
    Ok([
        albums.first().map(|row| row.id),
        albums.get(1).map(|row| row.id),
    ])
}

/// Runs statements over the database as another program would.
fn spoil(rt: &HostRuntime, path: &str, sql: &str) -> Result<(), Error> {
    let mut database = match Connection::open_from(rt, path, false, Wary) {
        Ok(database) => database,
        Err((error, _)) => return Err(error),
    };
    database.execute_batch(sql)?;
    database.close()
}
