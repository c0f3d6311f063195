//! Rows in their order, and put in their places.
ghost use Rattle.std.specs.Prelude.{◌≡◌, ◌≤◌, ◌<◌, ◌+◌, ◌↔◌, Bool, IsTrue, true, vec_len, vec_capacity};
ghost use Rattle.keeper_store.specs.Puts.{put, album_less, recording_less, segments_less, reply_less, IsOrder, Ascends, AscendsWhere, IsPlaceOf};
ghost use Rattle.keeper_store.specs.Orders.{albums_in_order, recordings_in_order, segments_in_order, replies_in_order};

use crate::{AlbumRow, RecordingRow, ReplyRow, SegmentRow};

/// A row that has its place among others.
pub trait Ranked {
    /// Whether the first row comes before the second.
    ghost less: { Self → Self → Bool };

    /// Whether this row comes before the other.
    fn is_before(&self, other: &Self) -> bool
        ensures { result ≡ less self.now other.now };

    /// It is an order.
    ghost order: { IsOrder less };
}

/// By ids.
impl Ranked for AlbumRow {
    ghost less = { album_less };

    ghost order = { albums_in_order };

    fn is_before(&self, other: &AlbumRow) -> bool {
        self.id < other.id
    }
}

/// By ids.
impl Ranked for RecordingRow {
    ghost less = { recording_less };

    ghost order = { recordings_in_order };

    fn is_before(&self, other: &RecordingRow) -> bool {
        self.id < other.id
    }
}

/// By takes.
impl Ranked for SegmentRow {
    ghost less = { segments_less };

    ghost order = { segments_in_order };

    fn is_before(&self, other: &SegmentRow) -> bool {
        self.take < other.take
    }
}

/// By the bytes of tokens.
impl Ranked for ReplyRow {
    ghost less = { reply_less };

    ghost order = { replies_in_order };

    fn is_before(&self, other: &ReplyRow) -> bool {
        self.token.as_str() < other.token.as_str()
    }
}

/// Puts a row in its place among ascending rows, over the one of its rank where there is one. It
/// takes no memory, so the caller makes room for one row more.
pub fn put_row<R: Ranked + Drop>(rows: &mut Vec<R>, row: R)
    requires room { vec_len rows.old < vec_capacity rows.old }
    requires ascend { Ascends R.less rows.old.items }
    ensures items { rows.new.items ≡ put R.less row rows.old.items }
    ensures ascend { Ascends R.less rows.new.items }
    ensures len { vec_len rows.new ≤ vec_len rows.old + 1 }
    ensures capacity { vec_capacity rows.old ≤ vec_capacity rows.new }
{
    put_tested(rows, row, true);
}

/// Puts a row in its place: by halving where the rows were tested and ascend, else by going over
/// them.
pub(crate) fn put_tested<R: Ranked + Drop>(rows: &mut Vec<R>, row: R, ascending: bool)
    requires room { vec_len rows.old < vec_capacity rows.old }
    requires ascend { AscendsWhere ascending R.less rows.old.items }
    ensures items { rows.new.items ≡ put R.less row rows.old.items }
    ensures ascend { AscendsWhere ascending R.less rows.new.items }
    ensures len { vec_len rows.new ≤ vec_len rows.old + 1 }
    ensures capacity { vec_capacity rows.old ≤ vec_capacity rows.new }
{
    let place = if ascending {
        halve_to(rows.as_slice(), &row)
    } else {
        walk_to(rows.as_slice(), &row)
    };
    put_at(rows, place, row);
}

/// The place of a row among ascending rows.
fn halve_to<R: Ranked>(rows: &[R], row: &R) -> usize
    requires { Ascends R.less rows.now }
    ensures { IsPlaceOf R.less row.now rows.now result }
{
    rows.partition_point(|other| other.is_before(row))
}

/// The place of a row among any rows.
fn walk_to<R: Ranked>(rows: &[R], row: &R) -> usize
    ensures { IsPlaceOf R.less row.now rows.now result }
{
    let mut place = 0usize;
    while place < rows.len() && rows[place].is_before(row) {
        place += 1;
    }
    place
}

/// Puts a row at its place.
fn put_at<R: Ranked + Drop>(rows: &mut Vec<R>, place: usize, row: R)
    requires room { vec_len rows.old < vec_capacity rows.old }
    requires place { IsPlaceOf R.less row rows.old.items place }
    ensures items { rows.new.items ≡ put R.less row rows.old.items }
    ensures len { vec_len rows.new ≤ vec_len rows.old + 1 }
    ensures capacity { vec_capacity rows.old ≤ vec_capacity rows.new }
{
    if place < rows.len() && !row.is_before(&rows[place]) {
        rows[place] = row;
    } else if rows.insert(place, row).is_err() {
        unreachable!()
    }
}

/// Whether each row comes before all that follow.
pub(crate) fn ascend<R: Ranked>(rows: &[R]) -> bool
    ensures { IsTrue result ↔ Ascends R.less rows.now }
{
    rows.is_sorted_by(|row, next| row.is_before(next))
}
