//! The rules of rows, and the row that breaks one.
ghost use Rattle.std.specs.Prelude.{◌≡◌, Some};
ghost use Rattle.library_model.specs.RowRules.{bad_row_text, row_rule_number, table_number};

use std::fmt;

/// The tables, in the order of their numbers, the first of which is 1.
#[derive(Clone, Copy, Debug, PartialEq, Eq)]
pub enum RowTable {
    /// The counters: one row.
    Counters = 1,
    Albums,
    Recordings,
    Segments,
    Replies,
}

impl RowTable {
    /// The table's number, as it is printed.
    pub fn number(self) -> u8
        ensures { result ≡ table_number self }
    {
        self as u8
    }
}

/// The rules that a row can break, in the order of their numbers, the first of which is 1.
///
/// Of a row that breaks several, the first counts. `OtherSummary` is tried last, where no row breaks
/// another rule.
#[derive(Clone, Copy, Debug, PartialEq, Eq)]
pub enum RowRule {
    /// An id or take that is 0, not below its counter, or not above that of the row before; a token
    /// that is not above that of the row before; or a counter that is not 1 to 2,147,483,647.
    OtherNumber = 1,
    /// A recording names an album that is not there.
    NoAlbum,
    /// A name or a token breaks its form.
    OtherText,
    /// Channels, depth, frames or peak are out of their range.
    OtherSound,
    /// The bytes are no energies, or not those of as many segments as the frames make.
    OtherEnergies,
    /// A take without its segments, named by no recording, or by two.
    OtherTake,
    /// An album with more than 256 recordings.
    CrowdedAlbum,
    /// A summary that is not the one of the energies, frames and peak.
    OtherSummary,
    /// A kept status that is neither 200 nor 201.
    OtherStatus,
}

impl RowRule {
    /// The rule's number, as it is printed.
    pub fn number(self) -> u8
        ensures { result ≡ row_rule_number self }
    {
        self as u8
    }
}

/// A row that breaks a rule.
#[derive(Clone, Copy, Debug, PartialEq, Eq)]
pub struct BadRow {
    pub table: RowTable,
    /// The row's id or take; of the counters and of kept replies its place, counted from 1.
    pub id: u64,
    pub rule: RowRule,
}

/// Prints as `table 3 id 3 rule 2`.
impl fmt::Display for BadRow {
    ghost output = { λ bad. Some (bad_row_text bad) };

    fn fmt<W: fmt::Write>(&self, f: &mut fmt::Formatter<W>) -> fmt::Result {
        let table = self.table.number();
        let rule = self.rule.number();
        write!(f, "table {table} id {} rule {rule}", self.id)
    }
}
