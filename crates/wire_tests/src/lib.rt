//! Tests of what speaks: requests read, routes, bodies and replies, sessions, and the words of a run.
//! Each module has those of one crate.
#![tactic(auto)]

#[cfg(test)]
mod bodies;
#[cfg(test)]
mod inbox;
#[cfg(test)]
mod routes;
#[cfg(test)]
mod sessions;
#[cfg(test)]
mod words;
#[cfg(test)]
mod writing;
