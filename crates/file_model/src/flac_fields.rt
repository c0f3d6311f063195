//! Where the parts of a FLAC file lie, in bytes, and what they hold (RFC 9639 sections 6 and 8).

/// Where the first metadata block has its head, behind `fLaC`.
pub const BLOCKS_AT: usize = 4;

/// How many bytes a block's head takes: a bit for the last one, seven of its type, 24 of the length
/// of its content.
pub const BLOCK_HEAD_BYTES: usize = 4;

/// The type of STREAMINFO.
pub const STREAMINFO: u8 = 0;

/// The type of a block of comments.
pub const COMMENTS: u8 = 4;

/// The type that no block has.
pub const INVALID: u8 = 127;

/// How many bytes the content of STREAMINFO has.
pub const STREAMINFO_BYTES: usize = 34;

/// Where in STREAMINFO the rate stands, in frames a second.
pub const RATE_AT: usize = 10;

/// In which byte of STREAMINFO the channels stand, and the bits of a sample begin.
pub const CHANNELS_AT: usize = 12;

/// In which byte of STREAMINFO the total of samples begins.
pub const TOTAL_AT: usize = 13;

/// Where in STREAMINFO the MD5 stands.
pub const MD5_AT: usize = 18;
