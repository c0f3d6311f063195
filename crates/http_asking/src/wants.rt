//! What changes want.
use library_model::{Command, Reply};

/// What a change wants.
#[derive(Debug, Drop)]
pub enum Wanted {
    /// Nothing: its name or its body breaks its form, and this is the reply.
    Malformed(Reply),
    Command(Command),
}
