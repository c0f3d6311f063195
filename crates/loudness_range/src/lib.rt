//! Loudness range (EBU Tech 3342).
//!
//! It promises that the range of windows is that of the definition: of those that pass both gates,
//! the level of the 95th percentile over the 10th, absent exactly where none passes.
#![tactic(auto)]

mod gates;
mod ranges;
mod tallies;

pub use ranges::{percentile_place, range};
pub use tallies::WindowTally;
