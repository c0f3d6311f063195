//! Requests out of a source that hands out its bytes in whatever pieces it likes.
//!
//! `next_request` reads the next one: its head stays in the `Inbox` until `pass` lets it go, its body
//! is read straight to where it is kept. It promises that what it frames is that request however the
//! bytes go on, that what it refuses can't be framed however they go on, or as they are at the
//! source's end, and that it answers a fault only where the source counted one. `fill` reads
//! straight to where bytes are wanted.
#![tactic(auto)]

mod bodies;
mod extents;
mod filling;
mod heads;
mod inbox;
mod requests;

pub use bodies::{BodyRead, read_body};
pub use extents::{BodySize, body_size};
pub use filling::fill;
pub use heads::{FieldSpan, Heading};
pub use inbox::{HeadRead, Inbox};
pub use requests::{Next, Request, next_request};
