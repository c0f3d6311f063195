//! From the weighted values of channels to gated loudness: segments, blocks, windows and gates.
//!
//! It promises that a meter has the sum of squares of each whole segment, however the values are
//! cut; that the blocks and the windows are the sums of 4 and of 30 neighbours from each place that
//! has enough after it; and that a loudness is that of the definition, by two strict gates. Only a
//! meter's maker and the lists of blocks and windows take memory.
#![tactic(auto)]

mod gates;
mod levels;
mod meters;
mod sums;
mod weights;

pub use gates::Tally;
pub use levels::{block_level, loudness, tally_level, window_level};
pub use meters::SegmentMeter;
pub use sums::{blocks, windows};
pub use weights::{add_weighted, weight};
