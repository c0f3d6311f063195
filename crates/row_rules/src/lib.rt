//! The rules of rows, tried on the tables that a keeper gives.
//!
//! It promises to find exactly the first row that breaks one of the rules 1 to 7 and 9, in the order
//! of the definition, in one pass over each table with look-ups by halving.
#![tactic(auto)]

ghost use Rattle.std.specs.Prelude.{◌≡◌, IfOk};
ghost use Rattle.library_model.specs.RowRules.{first_bad_row};

mod albums;
mod counters;
mod energies;
mod lookups;
mod names;
mod recordings;
mod replies;
mod segments;

use keeper_store::Tables;
use lib_base::Memory;
use library_model::BadRow;
pub use names::{is_name, is_token};
use std::alloc::Global;

/// The first row that breaks another rule than that of summaries. It takes memory for the numbers
/// that rows are looked up by, and gives it back.
pub fn first_bad(alloc: Global, tables: &Tables) -> Result<Option<BadRow>, Memory>
    ensures { IfOk result (λ bad. bad ≡ first_bad_row tables.now) }
{
    let counters = counters::first_bad(tables);
    if counters.is_some() {
        return Ok(counters);
    }
    let albums = albums::first_bad(alloc, tables)?;
    if albums.is_some() {
        return Ok(albums);
    }
    let recordings = recordings::first_bad(alloc, tables)?;
    if recordings.is_some() {
        return Ok(recordings);
    }
    let segments = segments::first_bad(alloc, tables)?;
    if segments.is_some() {
        return Ok(segments);
    }
    Ok(replies::first_bad(tables.replies.as_slice()))
}
