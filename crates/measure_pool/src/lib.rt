//! Measures sounds: the energies of their segments and their peak, over all channels, in jobs that
//! workers share.
//!
//! It promises that what is measured is exactly what the definition says of the sound's samples,
//! however the sound keeps them, for any number of workers and any gate, and within the bounds where
//! its frames are. The threads only read the sound. That jobs run at once is tested, not proved.
#![tactic(auto)]

mod found;
mod gates;
mod jobs;
mod lines;
mod measuring;
mod plans;
mod rounds;
#[cfg(test)]
mod tests;

pub use gates::{Gate, OpenGate};
pub use measuring::measure;
