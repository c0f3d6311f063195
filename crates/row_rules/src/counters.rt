//! The counters, and the numbers that they give.
ghost use Rattle.std.specs.Prelude.{◌≡◌};
ghost use Rattle.library_model.specs.RowRules.{is_counter, is_placed, counters_rule, bad_at};
ghost use Rattle.library_model.specs.declared.bad_rows.RowTable.TheVariants as table;

use keeper_store::Tables;
use lib_base::NUMBERS_END;
use library_model::{BadRow, RowRule, RowTable};

/// The row of the counters, where one of them is out of its range.
pub(crate) fn first_bad(tables: &Tables) -> Option<BadRow>
    ensures { result ≡ bad_at table.Counters 1 (counters_rule tables.now) }
{
    if is_counter(tables.next_album)
        && is_counter(tables.next_recording)
        && is_counter(tables.next_take)
    {
        return None;
    }
    Some(BadRow {
        table: RowTable::Counters,
        id: 1,
        rule: RowRule::OtherNumber,
    })
}

fn is_counter(next: u32) -> bool
    ensures { result ≡ is_counter next }
{
    1 <= next && next <= NUMBERS_END
}

/// Whether an id or a take is above the number before it, and below its counter.
pub(crate) fn is_placed(before: u32, next: u32, number: u32) -> bool
    ensures { result ≡ is_placed before next number }
{
    before < number && number < next
}
