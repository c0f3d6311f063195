//! The rows of segments.
ghost use Rattle.std.specs.Prelude.{◌≡◌, ℕ, [], IfOk};
ghost use Rattle.std.specs.Ordering.{nat_cmp};
ghost use Rattle.std.specs.BTreeMap.{get};
ghost use Rattle.library_model.specs.RowRules.{segments_rule, energies_rule, bad_segments, first_bad_of, frames_of_take};

use crate::counters::is_placed;
use crate::energies::are_energies_of;
use crate::lookups::{frames_at, frames_by_take};
use keeper_store::{SegmentRow, Tables};
use lib_base::Memory;
use library_model::{BadRow, RowRule, RowTable};
use std::alloc::Global;
use std::collections::BTreeMap;

/// The first row of segments that breaks a rule.
pub(crate) fn first_bad(alloc: Global, tables: &Tables) -> Result<Option<BadRow>, Memory>
    ensures { IfOk result (λ bad. bad ≡ first_bad_of (bad_segments tables.now) [] tables.now.segments) }
{
    let frames = frames_by_take(alloc, tables.recordings.as_slice())?;
    Ok(try_rows(tables, &frames))
}

fn try_rows(tables: &Tables, frames: &BTreeMap<u32, u64>) -> Option<BadRow>
    requires { (number : ℕ) → get nat_cmp frames.now number ≡ frames_of_take number tables.now.recordings }
    ensures { result ≡ first_bad_of (bad_segments tables.now) [] tables.now.segments }
{
    let mut before = 0;
    for row in tables.segments.as_slice() {
        let named = frames_at(frames, row.take);
        if let Some(rule) = broken_rule(tables.next_take, before, named, row) {
            return Some(BadRow {
                table: RowTable::Segments,
                id: u64::from(row.take),
                rule,
            });
        }
        before = row.take;
    }
    None
}

/// The rule that a row of segments breaks, after the one of the take before it, where a recording
/// with so many frames names its take, or none does.
fn broken_rule(next: u32, before: u32, frames: Option<u64>, row: &SegmentRow) -> Option<RowRule>
    ensures { result ≡ segments_rule next before frames row.now }
{
    if !is_placed(before, next, row.take) {
        return Some(RowRule::OtherNumber);
    }
    let Some(frames) = frames else {
        return Some(RowRule::OtherTake);
    };
    if !are_energies_of(frames, row.energies.as_slice()) {
        return Some(RowRule::OtherEnergies);
    }
    None
}
