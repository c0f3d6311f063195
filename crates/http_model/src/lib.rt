//! What a reader must believe of the wire: the requests that bytes spell, how an input is framed,
//! what a framed request asks, and the bytes that spell replies (RFC 9112).
//!
//! The definitions stand in `specs/`, and hold no algorithm. Here stand the limits and the
//! refusals, whose numbers and words both definitions and code read.
#![tactic(auto)]

pub mod limits;
mod refusals;

pub use refusals::{AskingRefusal, FramingRefusal};
