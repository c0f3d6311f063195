//! What is decided of a command, before its reply is kept.
ghost use Rattle.std.specs.Prelude.{◌≤◌};

use catalogue_rows::Fresh;
use keeper_store::Change;
use library_model::Reply;

/// The changes that a batch has at most: those of a new take of a recording in an album.
pub(crate) const MOST_CHANGES: usize = 6;

/// A change of the rows, but for the kept reply: what it makes, in order, what is fresh in it, the take
/// that it takes out of the recordings, and its reply. Its status is 200 or 201.
#[derive(Debug, Drop)]
pub struct Plan {
    pub(crate) changes: Vec<Change>,
    pub(crate) fresh: Fresh,
    pub(crate) released: Option<u32>,
    pub(crate) reply: Reply,
    ghost granted_least: { 200 ≤ reply.status },
    ghost granted_most: { reply.status ≤ 201 },
}

/// What is decided of a command.
#[derive(Debug, Drop)]
pub enum Decision {
    /// It is refused, with no change.
    Refused(Reply),
    /// It is accepted, and this is its change.
    Planned(Plan),
}
