//! The forms of names and of tokens.
ghost use Rattle.std.specs.Prelude.{◌≡◌};
ghost use Rattle.std.specs.List.{list_all};
ghost use Rattle.library_model.specs.Names.{is_name, is_shown, is_token, is_token_byte};

use library_model::limits::{MOST_NAME_BYTES, MOST_TOKEN_BYTES};

/// Whether a text may be the name of a recording or an album: at most 200 bytes, none of them a
/// control character of ASCII.
pub fn is_name(name: &str) -> bool
    ensures { result ≡ is_name name.now }
{
    let short = name.len() <= MOST_NAME_BYTES;
    short && are_shown(name.as_bytes())
}

/// Whether a text may be a token: 1 to 64 letters of ASCII, digits and dashes.
pub fn is_token(token: &str) -> bool
    ensures { result ≡ is_token token.now }
{
    let length = token.len();
    1 <= length && length <= MOST_TOKEN_BYTES && are_token_bytes(token.as_bytes())
}

fn are_shown(bytes: &[u8]) -> bool
    ensures { result ≡ list_all is_shown bytes.now }
{
    bytes.iter().all(|byte| *byte >= 0x20 && *byte != 0x7f)
}

fn are_token_bytes(bytes: &[u8]) -> bool
    ensures { result ≡ list_all is_token_byte bytes.now }
{
    bytes
        .iter()
        .all(|byte| byte.is_ascii_alphanumeric() || *byte == b'-')
}
