//! What a framed request asks (RFC 9110): it is refused, it is a question, or it is a change under a
//! token, with the mark by which a repeated one is known.
//!
//! `wanted` makes the command of a change, once it is known that one is wanted, and moves the body
//! into it.
#![tactic(auto)]

mod asking;
mod fields;
mod marks;
mod wanting;
mod wants;

pub use asking::{Asking, ask_for};
pub use fields::{Field, field_of, name_asked, token_asked};
pub use marks::mark_of;
pub use wanting::wanted;
pub use wants::Wanted;
