//! Rows taken out by their numbers.
ghost use Rattle.std.specs.Prelude.{◌≡◌, ◌≤◌, ℕ, refl, nat_lt, vec_len, vec_capacity};
ghost use Rattle.keeper_store.specs.Puts.{without, album_id, recording_id, segments_take, Ascends, AscendsWhere, IsPlaceOfNumber};

use crate::{AlbumRow, Ranked, RecordingRow, SegmentRow};

/// A row that has its place by a number: an id or a take.
pub trait Numbered: Ranked {
    /// Its number.
    ghost number_of: { Self → ℕ };

    /// Its number.
    fn number(&self) -> u32
        ensures { result ≡ number_of self.now };

    /// Rows stand in the order of their numbers.
    ghost by_number: { (a b : Self) → Self.less a b ≡ nat_lt (number_of a) (number_of b) };
}

/// Its id.
impl Numbered for AlbumRow {
    ghost number_of = { album_id };

    ghost by_number = { λ a b. refl };

    fn number(&self) -> u32 {
        self.id
    }
}

/// Its id.
impl Numbered for RecordingRow {
    ghost number_of = { recording_id };

    ghost by_number = { λ a b. refl };

    fn number(&self) -> u32 {
        self.id
    }
}

/// Its take.
impl Numbered for SegmentRow {
    ghost number_of = { segments_take };

    ghost by_number = { λ a b. refl };

    fn number(&self) -> u32 {
        self.take
    }
}

/// Takes the row of a number out from among ascending rows. Where there is none, nothing changes.
pub fn drop_row<R: Numbered + Drop>(rows: &mut Vec<R>, number: u32)
    requires { Ascends R.less rows.old.items }
    ensures items { rows.new.items ≡ without R.number_of number rows.old.items }
    ensures ascend { Ascends R.less rows.new.items }
    ensures len { vec_len rows.new ≤ vec_len rows.old }
    ensures capacity { vec_capacity rows.new ≡ vec_capacity rows.old }
{
    drop_tested(rows, number, true);
}

/// Takes the rows of a number out: by halving where the rows were tested and ascend, else by going
/// over them.
pub(crate) fn drop_tested<R: Numbered + Drop>(rows: &mut Vec<R>, number: u32, ascending: bool)
    requires { AscendsWhere ascending R.less rows.old.items }
    ensures items { rows.new.items ≡ without R.number_of number rows.old.items }
    ensures ascend { AscendsWhere ascending R.less rows.new.items }
    ensures len { vec_len rows.new ≤ vec_len rows.old }
    ensures capacity { vec_capacity rows.new ≡ vec_capacity rows.old }
{
    if ascending {
        drop_by_halving(rows, number);
    } else {
        drop_by_walk(rows, number);
    }
}

/// Takes the row of a number out from among ascending rows.
fn drop_by_halving<R: Numbered + Drop>(rows: &mut Vec<R>, number: u32)
    requires { Ascends R.less rows.old.items }
    ensures items { rows.new.items ≡ without R.number_of number rows.old.items }
    ensures len { vec_len rows.new ≤ vec_len rows.old }
    ensures capacity { vec_capacity rows.new ≡ vec_capacity rows.old }
{
    let place = place_of_number(rows.as_slice(), number);
    if place < rows.len() && rows[place].number() == number {
        rows.remove(place);
    }
}

/// How many of ascending rows have lesser numbers.
pub(crate) fn place_of_number<R: Numbered>(rows: &[R], number: u32) -> usize
    requires { Ascends R.less rows.now }
    ensures { IsPlaceOfNumber R.number_of number rows.now result }
{
    rows.partition_point(|row| row.number() < number)
}

/// Takes the rows of a number out from among any rows.
fn drop_by_walk<R: Numbered + Drop>(rows: &mut Vec<R>, number: u32)
    ensures items { rows.new.items ≡ without R.number_of number rows.old.items }
    ensures len { vec_len rows.new ≤ vec_len rows.old }
    ensures capacity { vec_capacity rows.new ≡ vec_capacity rows.old }
{
    rows.retain(|row| row.number() != number);
}
