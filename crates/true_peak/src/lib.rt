//! The true peak: the greatest size of a channel at four times its rate (BS.1770-4 Annex 2).
//!
//! It promises that a meter which is fed a channel's samples in any pieces gives the channel's peak,
//! with the places past the end, and that the peak over any stretch of places is that of the whole
//! channel there, so that stretches put together give the whole. It takes no memory.
#![tactic(auto)]

mod history;
mod meters;
mod ranges;
mod runs;

pub use meters::PeakMeter;
pub use ranges::peak_of_range;
