//! Bodies, read straight to where they are kept.
ghost use Rattle.std.specs.Prelude.{◌≡◌, ◌≤◌, ◌<◌, ◌+◌, ◌++◌, length, take, drop, IfOk, vec_capacity};
ghost use Rattle.http_inbox.specs.Bodies.{DrawsUpTo, ReadsBody};
ghost use Rattle.http_inbox.specs.Filling.{Fills};

use crate::filling::fill;
use lib_base::{Bytes, Memory, ReadEnd, Source};
use std::alloc::Global;

/// How many bytes one reading of a body asks for.
const PIECE: usize = 65_536;

/// What reading a body found.
#[derive(Drop)]
pub enum BodyRead {
    /// The body.
    Whole(Bytes),
    /// The source is at its end before the body's.
    Cut,
    /// A read failed before the body's end.
    Fault,
    /// The memory for the body is not to be had. Nothing was read.
    Memory,
}

/// Reads a body of that size, which begins with what is `held`, as far as that reaches. No byte
/// behind the body is read. Its memory is taken once, and is written as the bytes come.
pub fn read_body<S: Source>(alloc: Global, held: &[u8], source: &mut S, size: usize) -> BodyRead
    ensures { ReadsBody (S.shown source.old) (S.shown source.new) (take size held.now) size result }
{
    match begin(alloc, held, size) {
        Ok(body) => read_on(source, body, size),
        Err(Memory) => BodyRead::Memory,
    }
}

/// Room for a body of that size, with what is held of it.
fn begin(alloc: Global, held: &[u8], size: usize) -> Result<Vec<u8>, Memory>
    ensures held { IfOk result (λ body. body.items ≡ take size held.now) }
    ensures room { IfOk result (λ body. size ≤ vec_capacity body) }
{
    let mut body = Vec::with_capacity(alloc, size)?;
    body.extend_from_slice(held.split_at(size.min(held.len())).0)?;
    Ok(body)
}

/// Reads the rest of a body of that size, where there is one.
#[tactic(auto, using(crate::proofs::BodyLemmas::body_there))]
fn read_on<S: Source>(source: &mut S, body: Vec<u8>, size: usize) -> BodyRead
    requires within { length body.items ≤ size }
    requires room { size ≤ vec_capacity body }
    ensures { ReadsBody (S.shown source.old) (S.shown source.new) body.items size result }
{
    if body.len() < size {
        read_rest(source, body, size)
    } else {
        BodyRead::Whole(Bytes::of(body))
    }
}

/// Reads the rest of a body of that size.
fn read_rest<S: Source>(source: &mut S, mut body: Vec<u8>, size: usize) -> BodyRead
    requires within { length body.items ≤ size }
    requires room { size ≤ vec_capacity body }
    ensures { ReadsBody (S.shown source.old) (S.shown source.new) body.items size result }
{
    match read_until(source, &[0; PIECE], &mut body, size) {
        ReadEnd::Full => BodyRead::Whole(Bytes::of(body)),
        ReadEnd::End => BodyRead::Cut,
        ReadEnd::Fault => BodyRead::Fault,
    }
}

/// Reads until there are so many bytes, at most as many at a time as there are zeros.
fn read_until<S: Source>(source: &mut S, zeros: &[u8], body: &mut Vec<u8>, size: usize) -> ReadEnd
    requires some { 0 < length zeros.now }
    requires within { length body.old.items ≤ size }
    requires room { size ≤ vec_capacity body.old }
    ensures { DrawsUpTo (S.shown source.old) (S.shown source.new) body.old.items body.new.items size result }
{
    'pieces: while body.len() < size {
        let count = zeros.len().min(size - body.len());
        match read_piece(source, zeros.split_at(count).0, body) {
            ReadEnd::Full => {}
            ReadEnd::End => return ReadEnd::End,
            ReadEnd::Fault => return ReadEnd::Fault,
        }
    }
    ReadEnd::Full
}

/// Reads as many bytes as there are zeros, to behind those that are there.
fn read_piece<S: Source>(source: &mut S, zeros: &[u8], body: &mut Vec<u8>) -> ReadEnd
    requires room { length body.old.items + length zeros.now ≤ vec_capacity body.old }
    ensures capacity { vec_capacity body.old ≤ vec_capacity body.new }
    ensures draws { DrawsUpTo (S.shown source.old) (S.shown source.new) body.old.items body.new.items
        (length body.old.items + length zeros.now) result }
{
    let done = body.len();
    append(body, zeros);
    let (count, end) = fill_behind(source, body, done);
    body.truncate(done + count);
    end
}

/// Appends bytes for which there is room.
fn append(body: &mut Vec<u8>, more: &[u8])
    requires room { length body.old.items + length more.now ≤ vec_capacity body.old }
    ensures items { body.new.items ≡ body.old.items ++ more.now }
    ensures capacity { vec_capacity body.old ≤ vec_capacity body.new }
{
    if body.extend_from_slice(more).is_err() {
        unreachable!()
    }
}

/// Fills what is behind the first `done` bytes, which stay.
fn fill_behind<S: Source>(source: &mut S, body: &mut Vec<u8>, done: usize) -> (usize, ReadEnd)
    requires { done ≤ length body.old.items }
    ensures capacity { vec_capacity body.new ≡ vec_capacity body.old }
    ensures length { length body.new.items ≡ length body.old.items }
    ensures front { take done body.new.items ≡ take done body.old.items }
    ensures fills { Fills (S.shown source.old) (S.shown source.new) (drop done body.new.items)
        result.0 result.1 }
{
    fill_slice(source, body.as_mut_slice(), done)
}

/// The same in a slice.
fn fill_slice<S: Source>(source: &mut S, into: &mut [u8], done: usize) -> (usize, ReadEnd)
    requires { done ≤ length into.old }
    ensures length { length into.new ≡ length into.old }
    ensures front { take done into.new ≡ take done into.old }
    ensures fills { Fills (S.shown source.old) (S.shown source.new) (drop done into.new)
        result.0 result.1 }
{
    fill(source, into.split_at_mut(done).1)
}
