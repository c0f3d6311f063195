//! Tests of what measures: the base, levels, filters, peaks, gates, ranges and albums. Each module
//! has those of one crate.
#![tactic(auto)]

#[cfg(test)]
mod albums;
#[cfg(test)]
mod base;
#[cfg(test)]
mod filters;
#[cfg(test)]
mod gates;
#[cfg(test)]
mod levels;
#[cfg(test)]
mod peaks;
#[cfg(test)]
mod ranges;
