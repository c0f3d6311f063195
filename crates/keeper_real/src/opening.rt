//! Opening: the database opened, and its tables made where it is new.
use crate::refusals::Refusal;
use crate::saving::commit;
use crate::schema::TABLES;
use sqlite::{Alter, Connection, FileFrom, FileStore, Wary};
use std::alloc::AllocError;
use std::{fs, io};

/// A database in a file and its log, opened with no hypothesis on torn writes.
pub(crate) type Database = Connection<FileStore<FileFrom<Wary>>>;

/// How many bytes of a database and its log can be opened within a second.
const QUICK: u64 = 50 << 20;

/// Refuses to make a new database where the folder of takes holds a file, and makes nothing then: the
/// log of a new one would be taken in over a database that is put back.
pub(crate) fn refuse_new(rt: &HostRuntime, path: &str, takes: Option<&str>) -> Result<(), Refusal> {
    let Ok(log) = size_of_log(rt, path) else {
        return Err(Refusal::Memory);
    };
    if log == 0 && size_of_file(rt, path) == 0 {
        refuse_orphans(rt, takes)?;
    }
    Ok(())
}

/// Opens the file and its log, and makes them where they are missing.
///
/// The pages have no sums, which an ordinary sqlite3 that writes would spoil: rows are checked by
/// their rules whenever they are loaded.
pub(crate) fn connect(rt: &HostRuntime, path: &str) -> Result<Database, Refusal> {
    say_if_long(rt, path);
    match Connection::open_from(rt, path, false, Wary) {
        Ok(database) => Ok(database),
        Err((error, _)) => Err(error.into()),
    }
}

/// Makes the tables where there is none yet. `takes` is the folder in which a new database may find
/// no file.
pub(crate) fn prepare<S: Alter>(
    rt: &HostRuntime,
    database: &mut Connection<S>,
    takes: Option<&str>,
) -> Result<(), Refusal> {
    if count_tables(database)? == 0 {
        refuse_orphans(rt, takes)?;
        make_tables(database)?;
    }
    Ok(())
}

/// How many tables stand in the database.
fn count_tables<S: Alter>(database: &mut Connection<S>) -> Result<i64, Refusal> {
    let row = database.query_row("SELECT count(*) FROM sqlite_schema", &[])?;
    Ok(row.get(0)?)
}

/// Makes the tables in one transaction.
fn make_tables<S: Alter>(database: &mut Connection<S>) -> Result<(), Refusal> {
    if !database.is_autocommit() {
        return Err(Refusal::STATE);
    }
    let mut work = database.transaction();
    work.execute_batch(TABLES)?;
    match commit(work) {
        Ok(_) => Ok(()),
        Err(refusal) => Err(refusal),
    }
}

/// Refuses a folder that holds a file. One that is missing holds none, and one that can't be read
/// is told when a take is put.
fn refuse_orphans(rt: &HostRuntime, takes: Option<&str>) -> Result<(), Refusal> {
    match takes {
        Some(folder) if holds_files(rt, folder).unwrap_or(false) => Err(Refusal::Orphans),
        _ => Ok(()),
    }
}

fn holds_files(rt: &HostRuntime, folder: &str) -> io::Result<bool> {
    Ok(fs::read_dir(rt, folder)?.next().is_some())
}

/// Says before an opening that may take longer than a second how much there is to read.
fn say_if_long(rt: &HostRuntime, path: &str) {
    let size = size_of_file(rt, path).saturating_add(size_of_log(rt, path).unwrap_or(0));
    if size > QUICK {
        let megabytes = size >> 20;
        let _ = eprintln!(rt; "loudlib: {path}: opening {megabytes} MB");
    }
}

/// The length of the file, 0 where it can't be told.
fn size_of_file(rt: &HostRuntime, path: &str) -> u64 {
    match fs::metadata(rt, path) {
        Ok(about) => about.len(),
        Err(_) => 0,
    }
}

fn size_of_log(rt: &HostRuntime, path: &str) -> Result<u64, AllocError> {
    let log = format!(in rt.alloc(); "{path}-wal")?;
    Ok(size_of_file(rt, log.as_str()))
}
