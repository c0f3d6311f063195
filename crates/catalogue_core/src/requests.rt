//! What changes the library, as it is asked.
use kept_replies::Token;
use library_model::Command;

/// A command, with the token under which its reply is kept, and its mark: the MD5 of what is asked.
#[derive(Debug, Drop)]
pub struct Request {
    pub token: Token,
    pub mark: [u8; 16],
    pub command: Command,
}
