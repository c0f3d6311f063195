//! The widths of fields in a block of comments (RFC 9639 section 8.6).

/// How many bytes a length takes, and the count of comments.
pub const LENGTH_BYTES: usize = 4;
