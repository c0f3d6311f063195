//! Reads FLAC files whole: metadata blocks, frames, and the MD5 of their samples (RFC 9639).
//!
//! It promises that a file is read exactly where it is a FLAC file, with its blocks, what STREAMINFO
//! says and the places of its frames; and that any other is refused with the first rule that it
//! breaks, at its place.
#![tactic(auto)]

mod blocks;
mod decoding;
mod digest;
mod ending;
mod files;
mod frames;
mod info;
mod opening;
mod rules;
mod sound;

pub use blocks::Block;
pub use decoding::decode;
pub use file_model::Info;
pub use files::{FlacFile, read};
pub use sound::FlacSound;
