//! What the header lines say that a request's asking depends on.
ghost use Rattle.std.specs.Prelude.{◌≡◌, ℕ, List, IfOk, length, option_map};
ghost use Rattle.library_model.specs.Named.{if_name};
ghost use Rattle.http_inbox.specs.Heads.{IsFieldSpan};
ghost use Rattle.kept_replies.specs.Tokens.{text_of};
ghost use Rattle.http_model.specs.Asking.{if_token, name_given, name_marked, token_in};
ghost use Rattle.http_asking.specs.Fields.{IsField, IsFieldWithin};

use http_inbox::FieldSpan;
use kept_replies::Token;
use lib_base::{Memory, Text};
use row_rules::is_name;
use std::alloc::Global;

/// What the header lines of a name give.
#[derive(Clone, Copy)]
pub enum Field<'a> {
    /// No line has the name.
    Absent,
    /// One has, with this value.
    Value(&'a [u8]),
    /// Two have, or more.
    Repeated,
}

/// What the header lines of a name give that lie there in the bytes.
pub fn field_of(bytes: &[u8], span: FieldSpan) -> Field<'_>
    requires { IsFieldWithin (length bytes.now) span }
    ensures { (values : List (List ℕ)) → IsFieldSpan bytes.now span values → IsField result values }
{
    match span {
        FieldSpan::Absent => Field::Absent,
        FieldSpan::Value(place) => Field::Value(place.of(bytes)),
        FieldSpan::Repeated => Field::Repeated,
    }
}

/// The token that the lines `Request-Token` give: the value of the only one, where it is a token.
pub fn token_asked(alloc: Global, token: Field<'_>) -> Result<Option<Token>, Memory>
    ensures { IfOk result (λ given. (values : List (List ℕ)) → IsField token.entry values
        → option_map text_of given ≡ token_in values) }
{
    match token {
        Field::Value(text) => token_of(alloc, text),
        Field::Repeated | Field::Absent => Ok(None),
    }
}

fn token_of(alloc: Global, text: &[u8]) -> Result<Option<Token>, Memory>
    ensures { IfOk result (λ token. option_map text_of token ≡ if_token text.now) }
{
    Token::of(alloc, text)
}

/// What the lines `Recording-Name` give to the mark: the value of the only one, whatever it is, and
/// else nothing.
pub(crate) fn name_marked(name: Field<'_>) -> &[u8]
    ensures { (values : List (List ℕ)) → IsField name.entry values → result.now ≡ name_marked values }
{
    match name {
        Field::Value(text) => text,
        Field::Absent | Field::Repeated => b"",
    }
}

/// The name that the lines `Recording-Name` give a recording: the empty one where there is no line,
/// the value of the only one, where it is a name, and else none.
pub fn name_asked(alloc: Global, name: Field<'_>) -> Result<Option<Text>, Memory>
    ensures { IfOk result (λ given. (values : List (List ℕ)) → IsField name.entry values → given ≡ name_given values) }
{
    match name {
        Field::Absent => Ok(Some(Text::of(String::new(alloc)))),
        Field::Value(text) => name_of(alloc, text),
        Field::Repeated => Ok(None),
    }
}

fn name_of(alloc: Global, text: &[u8]) -> Result<Option<Text>, Memory>
    ensures { IfOk result (λ name. name ≡ if_name text.now) }
{
    match str::from_utf8(text) {
        Ok(name) => name_in(alloc, name),
        Err(_) => Ok(None),
    }
}

fn name_in(alloc: Global, text: &str) -> Result<Option<Text>, Memory>
    ensures { IfOk result (λ name. name ≡ if_name text.now) }
{
    if is_name(text) {
        Ok(Some(Text::of(String::from_str(alloc, text)?)))
    } else {
        Ok(None)
    }
}
