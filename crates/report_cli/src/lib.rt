//! A run of the program: the command that its words give, over the objects of the outside.
//!
//! It promises what the sink and the connections gain, what the tables and the files are at the end
//! of a run, and the cause of each exit status.
#![tactic(auto)]

mod lines;
mod running;
mod serving;
mod statuses;

pub use running::run;
pub use statuses::Status;
