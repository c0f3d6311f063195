//! Replies as bytes, written to a sink (RFC 9112).
//!
//! It promises that what is written of a reply is what the wire's definitions spell, whole, or a
//! part of it from the front where the answer is an error. A body is written from where it lies.
#![tactic(auto)]

mod heads;
mod writing;

pub use writing::{write_memory, write_reply};
