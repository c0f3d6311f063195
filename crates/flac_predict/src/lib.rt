//! Samples restored from what FLAC codes of them (RFC 9639 sections 4.2, 9.2.5 and 9.2.6).
//!
//! It promises that a restored list is the one that the coded list spells, and that a refusal names
//! the first place whose sample leaves the depth, and means that no samples within it are spelled.
//! It takes no memory.
#![tactic(auto)]

mod channels;
mod places;
mod prediction;

pub use channels::undo_stereo;
pub use file_model::Stereo;
pub use places::OutOfDepth;
pub use prediction::{restore_fixed, restore_linear};
