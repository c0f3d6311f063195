//! What a reader must believe of the library as a machine: its states, its requests, the step that
//! answers one, the bodies of its replies, and what tables and blobs stand for. How requests and
//! replies are spelled is no part of it.
//!
//! The definitions stand in `specs/`, and hold no algorithm. Here stand the plain types that
//! definitions and code share, and the table of refusals, which both read.
#![tactic(auto)]

mod bad_rows;
pub mod limits;
mod messages;
mod refusals;

pub use bad_rows::{BadRow, RowRule, RowTable};
pub use messages::{BodyKind, Command, Question, Reply};
pub use refusals::Refusal;
