//! Numbers of the library that definitions and code cite.

/// The bytes that a request's body has at most.
pub const MOST_BODY_BYTES: u64 = 268_435_456;

/// The bytes that a name has at most.
pub const MOST_NAME_BYTES: usize = 200;

/// The letters, digits and dashes that a token has at most.
pub const MOST_TOKEN_BYTES: usize = 64;
