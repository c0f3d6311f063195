//! A session: the requests of a source answered as they come, and their replies written to a sink.
//!
//! `session` reads its source in pieces and keeps no more of it than one request. It promises that
//! the sink gains exactly the replies to the source's requests in order, each from the state that the
//! one before left, that the library, the keeper's tables and the vault's files are those of the
//! state after them, that what requests take out of the library is swept from the vault, and that
//! each end and each fault that is answered has its cause, want of memory aside.
#![tactic(auto)]

mod answering;
mod changing;
mod serving;

pub use serving::{How, SessionEnd, session};
