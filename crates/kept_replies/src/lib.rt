//! Tokens of changing requests, and the replies that are kept under them.
//!
//! It promises that a token is made exactly of what has a token's form, that the reply kept under
//! a token is found by halving and told apart from one with another mark, and that a reply put
//! under a token lies there in the room that was made for it.
#![tactic(auto)]

mod keeping;
mod replies;
mod tokens;

pub use keeping::KeptReplies;
pub use replies::{KeptReply, Seen};
pub use tokens::Token;
