//! The levels of recordings and of albums.
//!
//! A tally is made once of what was measured of a recording; an album is of many. It promises that an
//! album answers at any moment, after any list of calls, what the definition gives afresh for the
//! recordings that it stands for. Only `TrackTally::make`, `Album::new`, `Album::reserve` and
//! `summarise` take memory.
#![tactic(auto)]

mod albums;
mod answers;
mod loudness;
mod members;
mod ranges;
mod summaries;
mod tallies;
mod trying;

pub use albums::Album;
pub use summaries::summarise;
pub use tallies::TrackTally;
