//! Reads a block of comments as FLAC files have them: a vendor, and comments of any bytes (RFC 9639
//! section 8.6).
//!
//! It promises that a block is read exactly where it is one, with its vendor and its comments; and
//! that any other is refused with the first rule that it breaks, at its place in the block.
#![tactic(auto)]

mod comments;
mod entries;
mod parts;
mod rules;
mod texts;

pub use comments::{Comments, read};
