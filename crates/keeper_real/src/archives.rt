//! The database of a library, opened and locked.
use crate::loading::read_tables;
use crate::opening::{Database, connect, prepare, refuse_new};
use crate::refusals::Refusal;
use crate::saving::make_batch;
use keeper_store::{Batch, Tables};
use sqlite::Error;
use std::alloc::Global;
use std::marker::Model;

/// The database of a library, opened and locked. No clause says what it holds.
pub(crate) struct Archive {
    database: Database,
}

// Written out, so that nobody else proves again how a database is let go.
impl Drop for Archive {
    fn drop(self) {
        let Archive { database: _ } = self;
    }
}

impl Model for Archive {
    ghost Value = { Unit {0} };

    ghost view = { λ _. tt };
}

impl Archive {
    /// Opens the database, and makes its tables where there is none yet. `takes` is the folder in
    /// which a new database may find no file.
    pub(crate) fn open(
        rt: &HostRuntime,
        path: &str,
        takes: Option<&str>,
    ) -> Result<Archive, Refusal> {
        refuse_new(rt, path, takes)?;
        let mut database = connect(rt, path)?;
        prepare(rt, &mut database, takes)?;
        Ok(Archive { database })
    }

    /// The rows of all tables.
    pub(crate) fn load(&mut self, alloc: Global) -> Result<Tables, Refusal> {
        read_tables(alloc, &mut self.database)
    }

    /// Makes all the changes of the batch in one transaction, or none.
    pub(crate) fn apply(&mut self, batch: &Batch) -> Result<(), Refusal> {
        match make_batch(&mut self.database, batch) {
            Ok(_) => Ok(()),
            Err(refusal) => Err(refusal),
        }
    }

    /// Copies the log into the file, and closes both.
    pub(crate) fn close(self) -> Result<(), Error> {
        let Archive { database } = self;
        database.close()
    }
}
