//! Rows looked up by their numbers.
ghost use Rattle.std.specs.Prelude.{◌≡◌, ◌≢◌, ◌==◌, IfSome, IfNone, All, option_copied};
ghost use Rattle.std.specs.List.{find};
ghost use Rattle.keeper_store.specs.Puts.{Ascends, IsFirstOfNumber};

use crate::Numbered;
use crate::drops::place_of_number;

/// The place of the row of a number among ascending rows, found by halving.
pub fn find_place<R: Numbered>(rows: &[R], number: u32) -> Option<usize>
    requires { Ascends R.less rows.now }
    ensures there { IfSome result (IsFirstOfNumber R.number_of number rows.now) }
    ensures missing { IfNone result (All (λ row. R.number_of row ≢ number) rows.now) }
{
    let place = place_of_number(rows, number);
    if place < rows.len() && rows[place].number() == number {
        return Some(place);
    }
    None
}

/// The row of a number among ascending rows, found by halving.
pub fn find_row<R: Numbered>(rows: &[R], number: u32) -> Option<&R>
    requires { Ascends R.less rows.now }
    ensures { option_copied result ≡ find (λ row. R.number_of row == number) rows.now }
{
    match find_place(rows, number) {
        Some(place) => Some(&rows[place]),
        None => None,
    }
}
