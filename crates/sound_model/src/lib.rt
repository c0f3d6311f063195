//! What is measured of a sound: the definitions that a reader must believe, and no algorithm.
//!
//! `specs/` says what the weighted list of a channel is, the energies of its segments, blocks and
//! windows, gated loudness, range, true peak, levels in decibels and how they are written.
//! `proofs/` checks worked values against the definitions, and shows that a level is one number.
#![tactic(auto)]
