//! Numbers of the wire that definitions and code cite.

/// The bytes that a head has at most.
pub const MOST_HEAD_BYTES: usize = 8_192;

/// The header lines that a head has at most.
pub const MOST_FIELDS: usize = 32;

/// The digits that a `Content-Length` has at most.
pub const MOST_SIZE_DIGITS: usize = 18;
