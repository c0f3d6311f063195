//! Ids in targets.
ghost use Rattle.std.specs.Prelude.{◌≡◌, ◌≢◌, slice_index, unwrap_or, IfSome, IfNone};
ghost use Rattle.std.specs.List.{before_first, after_first};
ghost use Rattle.std.specs.Str.Parse.{digits_value};
ghost use Rattle.http_routes.specs.Ids.{id_asked, id_text, is_slash, WritesNumber};

use lib_base::NUMBERS_END;

/// The id that a target writes between its second slash and its third, and 0 where it writes none.
pub(crate) fn id_in(target: &str) -> u32
    ensures { result ≡ id_asked (id_text target.now) }
{
    let text = before_slash(behind_slash(behind_slash(target)));
    id_written(text).unwrap_or(0)
}

/// What stands before the first slash.
fn before_slash(text: &str) -> &str
    ensures { result.now ≡ before_first is_slash text.now }
{
    match text.split_once('/') {
        Some((piece, _)) => piece,
        None => text,
    }
}

/// What stands behind the first slash.
fn behind_slash(text: &str) -> &str
    ensures { result.now ≡ after_first is_slash text.now }
{
    match text.split_once('/') {
        Some((_, rest)) => rest,
        None => "",
    }
}

/// The id that a text writes. It begins with no zero and no sign, which `parse` would take too.
fn id_written(text: &str) -> Option<u32>
    ensures { unwrap_or result 0 ≡ id_asked text.now }
{
    match text.as_bytes() {
        [b'1'..=b'9', ..] => {
            let id = number_written(text)?;
            (id < NUMBERS_END).then_some(id)
        }
        _ => None,
    }
}

/// The number that a text with no sign writes, where it fits 32 bits.
fn number_written(text: &str) -> Option<u32>
    requires { slice_index text.now 0 ≢ 43 }
    ensures some { IfSome result (λ number. WritesNumber text.now × (number ≡ digits_value 10 text.now)) }
    ensures none { IfNone result (¬ WritesNumber text.now) }
{
    text.parse::<u32>().ok()
}
