//! Tokens.
ghost use Rattle.std.specs.Prelude.{◌≡◌, true};
ghost use Rattle.library_model.specs.Names.{is_token};

use lib_base::{Memory, Text};
use row_rules::is_token;
use std::alloc::Global;

/// The token of a changing request: 1 to 64 letters of ASCII, digits and dashes.
#[derive(Debug, Drop)]
pub struct Token {
    text: Text,
    ghost form: { is_token text ≡ true },
}

impl Token {
    ghost use Rattle.std.specs.Prelude.{IfOk};
    ghost use Rattle.kept_replies.specs.Tokens.{TokenAs, text_of};

    /// The token of these bytes; None exactly where they are no token.
    pub fn of(alloc: Global, bytes: &[u8]) -> Result<Option<Token>, Memory>
        ensures { IfOk result (TokenAs bytes.now) }
    {
        match str::from_utf8(bytes) {
            Ok(text) => Token::of_text(alloc, text),
            Err(_) => Ok(None),
        }
    }

    fn of_text(alloc: Global, text: &str) -> Result<Option<Token>, Memory>
        ensures { IfOk result (TokenAs text.now) }
    {
        if !is_token(text) {
            return Ok(None);
        }
        let text = Text::of(String::from_str(alloc, text)?);
        Ok(Some(Token { text }))
    }

    /// Its text, which has the form of a token.
    pub fn as_str(&self) -> &str
        ensures text { result.now ≡ text_of self.now }
        ensures form { is_token (text_of self.now) ≡ true }
    {
        self.text.as_str()
    }

    /// Its text, given up with no memory taken.
    pub fn into_text(self) -> Text
        ensures text { result ≡ text_of self }
        ensures form { is_token result ≡ true }
    {
        self.text
    }
}
