//! A database as a keeper.
ghost use Rattle.std.specs.Prelude.{◌≡◌, ◌≤◌, None};
ghost use Rattle.lib_base.specs.Faults.{Rose};
ghost use Rattle.lib_base.specs.declared.outcomes.Outside.TheVariants as outside;

use crate::archives::Archive;
use crate::refusals::Refusal;
use keeper_store::{Batch, Keeper, Tables};
use lib_base::{Failed, Outside, Text};
use real_streams::{Faults, say};
use std::alloc::Global;

/// A database as a keeper. It is kept open and locked from its first use on.
pub struct SqliteKeeper<'r> {
    rt: &'r HostRuntime,
    alloc: Global,
    path: Text,
    takes: Option<Text>,
    link: Link,
    faults: Faults,
    applies: u64,
}

// Written out, so that a crate that holds a keeper does not prove again how its parts are let go.
impl Drop for SqliteKeeper<'_> {
    fn drop(self) {
        let SqliteKeeper {
            rt: _,
            alloc: _,
            path: _,
            takes: _,
            link: _,
            faults: _,
            applies: _,
        } = self;
    }
}

/// The way to the database.
#[derive(Drop)]
enum Link {
    /// Nothing was asked of it yet.
    Unused,
    Open(Archive),
    /// An opening failed. It is not tried again: a refused sync may have lost what it was to keep.
    Lost,
}

impl<'r> SqliteKeeper<'r> {
    /// A keeper over the database at this path, with no call and no fault yet.
    pub fn at(rt: &'r HostRuntime, alloc: Global, path: Text) -> SqliteKeeper<'r>
        ensures { ⟦<SqliteKeeper<'r> as Keeper>⟧.shown result
            ≡ record { tables = None; faults = 0; applies = 0 } }
    {
        SqliteKeeper {
            rt,
            alloc,
            path,
            takes: None,
            link: Link::Unused,
            faults: Faults::none(),
            applies: 0,
        }
    }

    /// The same, which refuses to make a new database while this folder holds files.
    pub fn beside(mut self, takes: Text) -> SqliteKeeper<'r>
        ensures { ⟦<SqliteKeeper<'r> as Keeper>⟧.shown result
            ≡ ⟦<SqliteKeeper<'r> as Keeper>⟧.shown self.entry }
    {
        self.takes = Some(takes);
        self
    }

    /// How many faults there were.
    pub fn faults(&self) -> u64
        ensures { result ≡ (⟦<SqliteKeeper<'r> as Keeper>⟧.shown self.now).faults }
    {
        self.faults.count()
    }

    /// Copies the log into the file, and closes the database. The next opening takes in a log that
    /// was not copied.
    pub fn close(self) -> Result<(), Failed> {
        let SqliteKeeper {
            rt,
            alloc: _,
            path,
            takes: _,
            link,
            faults: _,
            applies: _,
        } = self;
        match link {
            Link::Open(archive) => close(rt, path.as_str(), archive),
            Link::Unused | Link::Lost => Ok(()),
        }
    }

    /// Counts a refusal that is no want of memory, and says it.
    fn refuse(&mut self, refusal: Refusal) -> Outside
        ensures counts { (⟦<SqliteKeeper<'r> as Keeper>⟧.shown self.new).applies
            ≡ (⟦<SqliteKeeper<'r> as Keeper>⟧.shown self.old).applies }
        ensures failed { result ≡ outside.Failed → Rose self.old.faults self.new.faults }
        ensures memory { result ≡ outside.Memory → self.new.faults ≡ self.old.faults }
        ensures later { self.old.faults ≤ self.new.faults }
    {
        if matches!(refusal, Refusal::Memory) {
            return Outside::Memory;
        }
        self.faults.add(self.rt, self.path.as_str(), refusal);
        Outside::Failed
    }
}

impl<'r> Keeper for SqliteKeeper<'r> {
    ghost shown = { λ k. record { tables = None; faults = k.faults; applies = k.applies } };

    fn load(&mut self) -> Result<Tables, Outside> {
        let takes = self.takes.as_ref();
        match load(
            self.rt,
            self.alloc,
            self.path.as_str(),
            takes,
            &mut self.link,
        ) {
            Ok(tables) => Ok(tables),
            Err(refusal) => Err(self.refuse(refusal)),
        }
    }

    fn apply(&mut self, batch: &Batch) -> Result<(), Outside> {
        self.applies = self.applies.saturating_add(1);
        let takes = self.takes.as_ref();
        match apply(self.rt, self.path.as_str(), takes, &mut self.link, batch) {
            Ok(()) => Ok(()),
            Err(refusal) => Err(self.refuse(refusal)),
        }
    }
}

/// The tables that the database holds.
fn load(
    rt: &HostRuntime,
    alloc: Global,
    path: &str,
    takes: Option<&Text>,
    link: &mut Link,
) -> Result<Tables, Refusal> {
    open_unused(rt, path, takes, link)?;
    match link {
        Link::Open(archive) => archive.load(alloc),
        Link::Unused | Link::Lost => Err(Refusal::CLOSED),
    }
}

/// Makes the changes of the batch in the database.
fn apply(
    rt: &HostRuntime,
    path: &str,
    takes: Option<&Text>,
    link: &mut Link,
    batch: &Batch,
) -> Result<(), Refusal> {
    open_unused(rt, path, takes, link)?;
    match link {
        Link::Open(archive) => archive.apply(batch),
        Link::Unused | Link::Lost => Err(Refusal::CLOSED),
    }
}

/// Opens the database where nothing was asked of it yet. Want of memory leaves it unused.
fn open_unused(
    rt: &HostRuntime,
    path: &str,
    takes: Option<&Text>,
    link: &mut Link,
) -> Result<(), Refusal> {
    if !matches!(link, Link::Unused) {
        return Ok(());
    }
    match Archive::open(rt, path, takes.map(|takes| takes.as_str())) {
        Ok(archive) => *link = Link::Open(archive),
        Err(Refusal::Memory) => return Err(Refusal::Memory),
        Err(refusal) => {
            *link = Link::Lost;
            return Err(refusal);
        }
    }
    Ok(())
}

/// Copies the log into the file and closes both. Where that fails it says why.
fn close(rt: &HostRuntime, path: &str, archive: Archive) -> Result<(), Failed> {
    match archive.close() {
        Ok(()) => Ok(()),
        Err(error) => {
            say(rt, path, error);
            Err(Failed)
        }
    }
}
