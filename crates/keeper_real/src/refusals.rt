//! Why a call of the database was refused.
use sqlite::{Error, ErrorCode};
use std::alloc::AllocFailed;
use std::fmt;

/// Why a call of the database was refused.
#[derive(Clone, Copy)]
pub(crate) enum Refusal {
    /// Want of memory.
    Memory,
    /// What the database answered.
    Database(Error),
    /// A row that no row of the library can be, by its table and its first field. In the tables of
    /// counters and replies it is the row's place, counted from 1.
    Row { table: &'static str, id: i64 },
    /// The database is new, and its takes are not: they are of an archive that lost its database,
    /// and the next import would overwrite the first of them.
    Orphans,
}

impl Refusal {
    /// The transaction is in another state than it has to be.
    pub(crate) const STATE: Refusal = Refusal::Database(Error::SqliteFailure(
        ErrorCode::TransactionState,
    ));

    /// The database is closed.
    pub(crate) const CLOSED: Refusal = Refusal::Database(Error::SqliteFailure(ErrorCode::Closed));
}

impl From<Error> for Refusal {
    fn from(error: Error) -> Refusal {
        match error {
            Error::SqliteFailure(ErrorCode::OutOfMemory) => Refusal::Memory,
            _ => Refusal::Database(error),
        }
    }
}

impl<T: Drop> From<AllocFailed<T>> for Refusal {
    fn from(_: AllocFailed<T>) -> Refusal {
        Refusal::Memory
    }
}

impl fmt::Display for Refusal {
    fn fmt<W: fmt::Write>(&self, f: &mut fmt::Formatter<W>) -> fmt::Result {
        match *self {
            Refusal::Memory => f.write_str("out of memory"),
            Refusal::Database(error) => write!(f, "{error}"),
            Refusal::Row { table, id } => write!(f, "row {id} of {table} can't be one"),
            Refusal::Orphans => f.write_str(
                "a new database, where the folder of takes holds files",
            ),
        }
    }
}
