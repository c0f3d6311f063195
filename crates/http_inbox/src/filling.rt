//! Bytes read straight to where they are wanted.
ghost use Rattle.std.specs.Prelude.{◌≡◌, ◌≤◌, length, take, drop, IfOk};
ghost use Rattle.lib_base.specs.Sources.{Reads};
ghost use Rattle.http_inbox.specs.Filling.{Fills};

use lib_base::{Failed, Memory, ReadEnd, Source};
use std::alloc::Global;

/// Reads until `into` is full, and answers how many bytes came and why the reading ended. They stand
/// at the front of `into`.
pub fn fill<S: Source>(source: &mut S, into: &mut [u8]) -> (usize, ReadEnd)
    ensures length { length into.new ≡ length into.old }
    ensures fills { Fills (S.shown source.old) (S.shown source.new) into.new result.0 result.1 }
{
    let mut done = 0usize;
    'pieces: while done < into.len() {
        match read_behind(source, into, done) {
            Ok(0) => return (done, ReadEnd::End),
            Ok(count) => done += count,
            Err(Failed) => return (done, ReadEnd::Fault),
        }
    }
    (done, ReadEnd::Full)
}

/// Reads one piece to behind the first `done` bytes, which stay.
pub(crate) fn read_behind<S: Source>(
    source: &mut S,
    into: &mut [u8],
    done: usize,
) -> Result<usize, Failed>
    requires { done ≤ length into.old }
    ensures length { length into.new ≡ length into.old }
    ensures front { take done into.new ≡ take done into.old }
    ensures reads { Reads (S.shown source.old) (S.shown source.new) (drop done into.new) result }
{
    source.read(into.split_at_mut(done).1)
}

/// So many zeros.
pub(crate) fn zeros(alloc: Global, size: usize) -> Result<Vec<u8>, Memory>
    ensures { IfOk result (λ zeros. length zeros.items ≡ size) }
{
    let zeros = vec![in alloc; 0; size]?;
    Ok(zeros)
}
