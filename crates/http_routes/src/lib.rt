//! Which route a request's target finds, which methods that route has, and what the target names.
//!
//! The search is `matchit`'s, and only this crate uses it: a route is found exactly where the
//! definitions say, so what finds none is answered 404.
#![tactic(auto)]

mod ids;
mod resources;
mod routes;

pub use resources::Resource;
pub use routes::{Paths, Route};
