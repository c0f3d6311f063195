//! A source of the same request over and over.
ghost use Rattle.std.specs.Prelude.{◌≤◌, length};

use lib_base::{Failed, Source};
use std::alloc::{AllocError, Global};

/// The bytes of a request, so many times, in pieces of at most so many bytes.
#[derive(Drop)]
pub struct Rounds {
    bytes: Vec<u8>,
    at: usize,
    most: usize,
    left: u32,
}

impl Rounds {
    pub fn new(bytes: Vec<u8>, most: usize, left: u32) -> Rounds {
        Rounds {
            bytes,
            at: 0,
            most,
            left,
        }
    }
}

impl Source for Rounds {
    ghost use Rattle.std.specs.Prelude.{None};

    ghost shown = { λ _. record { left = None; faults = 0 } };

    fn read(&mut self, into: &mut [u8]) -> Result<usize, Failed> {
        if self.left == 0 {
            return Ok(0);
        }
        let rest = self
            .bytes
            .as_slice()
            .split_at(self.at.min(self.bytes.len()))
            .1;
        let count = copied(rest, self.most, into);
        self.at = self.at.saturating_add(count);
        if self.at >= self.bytes.len() {
            self.at = 0;
            self.left -= 1;
        }
        Ok(count)
    }
}

/// Copies what fits, at most so many bytes, and answers how many.
fn copied(bytes: &[u8], most: usize, into: &mut [u8]) -> usize
    ensures { result ≤ length into.new }
{
    let count = bytes.len().min(most).min(into.len());
    into.split_at_mut(count)
        .0
        .copy_from_slice(bytes.split_at(count).0);
    count
}

/// A request: its start, so many letters, and its end.
pub fn request_of(
    alloc: Global,
    start: &[u8],
    letters: usize,
    end: &[u8],
) -> Result<Vec<u8>, AllocError> {
    let mut bytes = Vec::from_slice(alloc, start)?;
    for _ in 0..letters {
        bytes.push(b'a')?;
    }
    bytes.extend_from_slice(end)?;
    Ok(bytes)
}
