//! Accepts files of both kinds, waves and FLAC.
//!
//! It promises that bytes are accepted exactly where they are a wave, or a FLAC file whose comments
//! are right, with what their readers promise; and that any others are refused with the rule that
//! they break first, at its place.
#![tactic(auto)]

mod any_sound;
mod comments;
mod files;

pub use any_sound::AnySound;
pub use files::{Accepted, accept};
