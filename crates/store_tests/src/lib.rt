//! Tests of what keeps: keeper and vault, rules of rows, kept replies, rows with their tallies, and
//! the catalogue. Each module has those of one crate.
#![tactic(auto)]

#[cfg(test)]
mod keepers;
#[cfg(test)]
mod libraries;
#[cfg(test)]
mod replies;
#[cfg(test)]
mod rows;
#[cfg(test)]
mod rules;
