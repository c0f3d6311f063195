//! Where the fields of a wave file lie, in bytes, and what they hold.
//!
//! After the Multimedia Programming Interface and Data Specifications 1.0 of Microsoft and IBM
//! (RIFF), WAVEFORMATEXTENSIBLE of Microsoft, and EBU Tech 3285 (the `bext` chunk). Numbers stand
//! with their lowest byte first.

/// Where the size stands, which counts the bytes from `FORM_AT` on.
pub const SIZE_AT: usize = 4;

/// Where the form stands, `WAVE`.
pub const FORM_AT: usize = 8;

/// Where the first chunk has its head.
pub const CHUNKS_AT: usize = 12;

/// Where in a chunk's head the length of its content stands, behind its name.
pub const LENGTH_AT: usize = 4;

/// How many bytes a chunk's head takes.
pub const CHUNK_HEAD_BYTES: usize = 8;

/// How many bytes a `fmt ` content has at least.
pub const FORMAT_BYTES: usize = 16;

/// How many bytes a `fmt ` content of the extensible form has at least.
pub const EXTENSIBLE_BYTES: usize = 40;

/// Where in a `fmt ` content the tag stands, which names the form of the samples.
pub const TAG_AT: usize = 0;

/// Where the number of channels stands.
pub const CHANNELS_AT: usize = 2;

/// Where the rate stands, in frames a second.
pub const RATE_AT: usize = 4;

/// Where the bytes of a frame stand.
pub const ALIGN_AT: usize = 12;

/// Where the bits of a sample stand.
pub const DEPTH_AT: usize = 14;

/// Where in the extensible form the subformat stands, which names the form of the samples.
pub const SUBFORMAT_AT: usize = 24;

/// The tag of PCM.
pub const PCM_TAG: u16 = 1;

/// The tag of the extensible form.
pub const EXTENSIBLE_TAG: u16 = 0xFFFE;

/// The subformat of PCM.
pub const PCM_SUBFORMAT: [u8; 16] = [
    0x01, 0x00, 0x00, 0x00, 0x00, 0x00, 0x10, 0x00, 0x80, 0x00, 0x00, 0xAA, 0x00, 0x38, 0x9B, 0x71,
];

/// How many bytes a `bext` content has at least.
pub const BEXT_BYTES: usize = 602;
