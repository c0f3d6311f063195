//! Bits, coded numbers and checks of FLAC files, read from bytes.
//!
//! It promises that each field is the value of its bits, the high bit first, and that a reader then
//! stands right behind it; that a field is refused exactly where the bits end inside it, or where a
//! byte that is there breaks the form of a coded number; and that a check is the remainder of its
//! polynomial. Nothing takes memory.
#![tactic(auto)]

mod checks;
mod reader;
mod tables;
mod windows;

pub use checks::{crc8, crc16};
pub use file_model::BitFault;
pub use reader::BitReader;
