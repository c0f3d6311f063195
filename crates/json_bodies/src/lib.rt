//! Bodies of JSON (RFC 8259): those of replies, written, and those of requests, read.
//!
//! A reply's body is exactly that of the library's definitions, and a request's body says exactly
//! what they say that it says, or memory wants. Only this crate uses `serde_json`.
#![tactic(auto)]

mod names;
mod objects;
mod replies;
mod requests;

pub use names::is_name;
pub use replies::{describe_album, describe_removed, describe_row, refuse, refuse_format};
pub use requests::{read_album, read_name};
