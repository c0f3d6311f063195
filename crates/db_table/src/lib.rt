//! Levels of ratios in decibels, and the texts of gains and peaks.
//!
//! It promises that a level is that of the definition for every ratio of numbers below 2^92, that
//! the bucket of a level doesn't fall where the ratio rises, and the exact bytes of each text.
#![tactic(auto)]

mod levels;
mod table;
mod texts;

pub use levels::{bucket, hundredths, level};
pub use texts::{decimal_text, gain_text, peak_text};
