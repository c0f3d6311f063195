//! The rows of albums.
ghost use Rattle.std.specs.Prelude.{◌≡◌, ℕ, [], IfOk, unwrap_or};
ghost use Rattle.std.specs.Ordering.{nat_cmp};
ghost use Rattle.std.specs.BTreeMap.{get};
ghost use Rattle.library_model.specs.RowRules.{album_rule, bad_album, first_bad_of, member_count};

use crate::counters::is_placed;
use crate::lookups::{count_of, member_counts};
use crate::names::is_name;
use keeper_store::{AlbumRow, Tables};
use lib_base::{MOST_MEMBERS, Memory};
use library_model::{BadRow, RowRule, RowTable};
use std::alloc::Global;
use std::collections::BTreeMap;

/// The first row of an album that breaks a rule.
pub(crate) fn first_bad(alloc: Global, tables: &Tables) -> Result<Option<BadRow>, Memory>
    ensures { IfOk result (λ bad. bad ≡ first_bad_of (bad_album tables.now) [] tables.now.albums) }
{
    let counts = member_counts(alloc, tables.recordings.as_slice())?;
    Ok(try_rows(tables, &counts))
}

fn try_rows(tables: &Tables, counts: &BTreeMap<u32, u64>) -> Option<BadRow>
    requires { (id : ℕ) → unwrap_or (get nat_cmp counts.now id) 0 ≡ member_count id tables.now.recordings }
    ensures { result ≡ first_bad_of (bad_album tables.now) [] tables.now.albums }
{
    let mut before = 0;
    for row in tables.albums.as_slice() {
        let members = count_of(counts, row.id);
        if let Some(rule) = broken_rule(tables.next_album, before, members, row) {
            return Some(BadRow {
                table: RowTable::Albums,
                id: u64::from(row.id),
                rule,
            });
        }
        before = row.id;
    }
    None
}

/// The rule that the row of an album with so many recordings breaks, after the one of the id before
/// it.
fn broken_rule(next: u32, before: u32, members: u64, row: &AlbumRow) -> Option<RowRule>
    ensures { result ≡ album_rule next before members row.now }
{
    if !is_placed(before, next, row.id) {
        return Some(RowRule::OtherNumber);
    }
    if !is_name(row.name.as_str()) {
        return Some(RowRule::OtherText);
    }
    if members > MOST_MEMBERS {
        return Some(RowRule::CrowdedAlbum);
    }
    None
}
