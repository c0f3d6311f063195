//! Frames of FLAC files (RFC 9639 section 9).
//!
//! It promises that a header, and a whole frame, is read exactly where it is that of a frame of the
//! file; that the samples of its channels then stand one after another; and that any other bytes are
//! refused with the rule that they break first, in the order of the bits, at the frame's place.
//! Nothing takes memory, and a frame costs what its own bytes and samples cost. One channel of a
//! frame that was read before is read alone, with no more of the frame than it wants.
#![tactic(auto)]

mod channels;
mod frame;
mod header;
mod one_channel;
mod residual;
mod rules;
mod subframe;

pub use file_model::{Info, Stereo};
pub use frame::{FrameEnd, GREATEST_BLOCK, channel, read_frame};
pub use header::{Header, read_header};
pub use one_channel::read_one_channel;
