//! Standard input and output, and connections over TCP, as the objects of a run.
//!
//! They tell no content. Each counts its faults, and says each in one line on standard error: the
//! object, and the system's reason. Making one calls nothing.
#![tactic(auto)]

mod doors;
mod faults;
mod halves;
mod standard;
#[cfg(test)]
mod tests;

pub use doors::TcpDoor;
pub use faults::{Faults, say};
pub use halves::{TcpSink, TcpSource};
pub use standard::{StdSink, StdSource};
