//! The K-weighting filter of loudness measurement (BS.1770-4 Annex 1), at 48,000 Hz.
//!
//! It promises that a filter which is fed a channel's samples in any pieces gives exactly the
//! channel's weighted list, piece by piece. It takes no memory.
#![tactic(auto)]

mod filters;
mod rounding;
mod sections;

pub use filters::Filter;
