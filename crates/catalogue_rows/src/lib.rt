//! The counters and rows of the library, kept in memory and changed in place, with the tallies of its
//! recordings.
//!
//! It promises that changes lead from tables that the rows hold to the tables that they make of
//! them, with no memory taken; that what an album would sum to after a change of one recording is
//! told before the change is made; and that rows are found by halving. Tables are opened where no
//! row breaks a rule, and else the first row is told that does.
#![tactic(auto)]

mod building;
mod fresh;
mod joining;
mod kept;
mod making;
mod measuring;
mod members;
mod moving;
mod opening;
mod placing;
mod ranks;
mod room;
mod rows;
mod summing;
mod tallies;
mod trying;

pub use fresh::Fresh;
pub use kept::{KeptAlbum, KeptRecording};
pub use opening::{NotOpened, open_rows};
pub use rows::CatalogueRows;
