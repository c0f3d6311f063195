//! What a file is: the definitions that a reader must believe, and no algorithm.
//!
//! `specs/` says which bytes are a wave of which samples, and what a file reads as: accepted with
//! its samples, or broken by a rule at a place. `proofs/` checks worked files against the
//! definitions, and shows that a file reads as one thing only. Here stand the names that
//! definitions and code share: of the rules, and of the places of fields.
#![tactic(auto)]

mod bits;
pub mod comment_fields;
mod comment_rules;
pub mod flac_fields;
mod flac_info;
mod flac_rules;
mod pairs;
pub mod wave_fields;
mod wave_rules;

pub use bits::BitFault;
pub use comment_rules::{CommentBreak, CommentRule, KindRule};
pub use flac_info::Info;
pub use flac_rules::FlacRule;
pub use pairs::Stereo;
pub use wave_rules::WaveRule;
