//! Names of albums and recordings.
ghost use Rattle.std.specs.Prelude.{◌≡◌};
ghost use Rattle.std.specs.List.{list_all};
ghost use Rattle.std.specs.Str.{is_utf8};
ghost use Rattle.library_model.specs.Names as model;

use library_model::limits::MOST_NAME_BYTES;

/// Whether a text is a name: up to 200 bytes of UTF-8 (RFC 3629), none of them a control of ASCII.
pub fn is_name(text: &[u8]) -> bool
    ensures { result ≡ model.is_name text.now }
{
    is_text(text) && (text.len() <= MOST_NAME_BYTES && has_no_control(text))
}

fn has_no_control(text: &[u8]) -> bool
    ensures { result ≡ list_all model.is_shown text.now }
{
    text.iter().all(|byte| 0x20 <= *byte && *byte != 0x7F)
}

fn is_text(text: &[u8]) -> bool
    ensures { result ≡ is_utf8 text.now }
{
    str::from_utf8(text).is_ok()
}
