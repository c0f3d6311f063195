//! The words of a run: the command that they give, with its numbers.
//!
//! It promises that words give a command exactly where the definition says that they do, and that
//! command, or memory wants. Only this crate uses `clap`.
#![tactic(auto)]

mod applications;
mod commands;
mod numbers;

pub use commands::{Command, read_command};
