//! Tests of what reads files: bits, FLAC, waves, comments, and files of both kinds. Each module has
//! tests of one crate.
#![tactic(auto)]

#[cfg(test)]
mod accepting;
#[cfg(test)]
mod bits;
#[cfg(test)]
mod comments;
#[cfg(test)]
mod flac_files;
#[cfg(test)]
mod flac_sounds;
#[cfg(test)]
mod frames;
#[cfg(test)]
mod headers;
#[cfg(test)]
mod one_channel;
#[cfg(test)]
mod openings;
#[cfg(test)]
mod ordinary_files;
#[cfg(test)]
mod prediction;
#[cfg(test)]
mod waves;
