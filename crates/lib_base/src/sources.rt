//! Where bytes come from.
ghost use Rattle.std.specs.Prelude.{OnOk, ◌≡◌, ◌↔◌, ◌≤◌, ◌^◌, ◌++◌, ◌<◌, ◌+◌, ◌-◌, ℕ, List, length, Option, Some, OnErr, IsErr, IfOk, MatchResult, vec_capacity, drop, take, []};
ghost use Rattle.lib_base.specs.Sources.{Reads, Takes};

use crate::plans::FaultPlan;
use crate::{Bytes, Failed, Memory};
use std::alloc::Global;

/// A source of bytes.
pub trait Source {
    ghost use Rattle.lib_base.specs.Sources.{SourceView};

    /// What it tells.
    ghost shown: { Self → SourceView };

    /// Moves bytes from the front of what is left to the front of `into`. Zero for a piece that
    /// isn't empty means that the source is at its end. A refusal moves none.
    fn read(&mut self, into: &mut [u8]) -> Result<usize, Failed>
        ensures { Reads (shown self.old) (shown self.new) into.new result };
}

/// Why a reading of many pieces ended.
#[derive(Clone, Copy, Debug, PartialEq, Eq)]
pub enum ReadEnd {
    /// The source is at its end, before as many bytes came as were asked for.
    End,
    /// As many bytes came as were asked for.
    Full,
    /// A read failed, before as many bytes came as were asked for.
    Fault,
}

/// What a reading of many pieces took, and why it ended.
#[derive(Debug, Drop)]
pub struct Taken {
    pub bytes: Bytes,
    pub end: ReadEnd,
}

const PIECE: usize = 4096;

/// Takes at most `most` bytes from the source. The memory comes first, so that a refusal leaves the
/// source as it was.
pub fn read_up_to<S: Source>(alloc: Global, source: &mut S, most: usize) -> Result<Taken, Memory>
    ensures refused { OnErr result (source.new ≡ source.old) }
    ensures takes { IfOk result (λ taken.
        Takes (S.shown source.old) (S.shown source.new) most taken.bytes taken.end) }
{
    let mut bytes = Vec::with_capacity(alloc, most)?;
    let end = read_pieces(source, &mut [0; PIECE], &mut bytes, most);
    Ok(Taken {
        bytes: Bytes::of(bytes),
        end,
    })
}

/// Reads pieces through `buffer` until `bytes` holds `most` of them.
fn read_pieces<S: Source>(
    source: &mut S,
    buffer: &mut [u8],
    bytes: &mut Vec<u8>,
    most: usize,
) -> ReadEnd
    requires buffer { 0 < length buffer.old }
    requires empty { bytes.old.items ≡ [] }
    requires room { most ≤ vec_capacity bytes.old }
    ensures { Takes (S.shown source.old) (S.shown source.new) most bytes.new.items result }
{
    'pieces: while bytes.len() < most {
        let room = buffer.len().min(most - bytes.len());
        match read_onto(source, &mut buffer[..room], bytes) {
            Ok(0) => return ReadEnd::End,
            Ok(_) => {}
            Err(Failed) => return ReadEnd::Fault,
        }
    }
    ReadEnd::Full
}

/// Reads one piece, and appends what came to `bytes`.
fn read_onto<S: Source>(
    source: &mut S,
    piece: &mut [u8],
    bytes: &mut Vec<u8>,
) -> Result<usize, Failed>
    requires room { length bytes.old.items + length piece.old ≤ vec_capacity bytes.old }
    ensures reads { Reads (S.shown source.old) (S.shown source.new) piece.new result }
    ensures appended { MatchResult result (λ count. bytes.new.items ≡ bytes.old.items ++ take count piece.new)
        (λ _. bytes.new.items ≡ bytes.old.items) }
    ensures capacity { vec_capacity bytes.old ≤ vec_capacity bytes.new }
{
    let count = source.read(piece)?;
    match bytes.extend_from_slice(piece.split_at(count).0) {
        Ok(()) => Ok(count),
        Err(_) => unreachable!(),
    }
}

/// A source over bytes in memory, which tells what is left.
#[derive(Debug, Drop)]
pub struct MemSource {
    bytes: Bytes,
    at: usize,
    plan: FaultPlan,
    ghost inside: { at ≤ length bytes },
}

impl MemSource {
    ghost use Rattle.lib_base.specs.MemoryPlans.{source_plan};
    ghost use Rattle.lib_base.specs.Plan.{first_plan};

    /// A source of these bytes. `failing` numbers the reads that fail, from 1.
    pub fn new(bytes: Bytes, failing: Vec<u32>) -> MemSource
        ensures told { ⟦<MemSource as Source>⟧.shown result ≡ record { left = Some bytes; faults = 0 } }
        ensures plan { source_plan result ≡ first_plan failing.items }
    {
        MemSource {
            bytes,
            at: 0,
            plan: FaultPlan::new(failing),
        }
    }

    pub(crate) fn faults(&self) -> u64
        ensures { result ≡ (⟦<MemSource as Source>⟧.shown self.now).faults }
    {
        self.plan.faults()
    }
}

impl Source for MemSource {
    ghost use Rattle.lib_base.specs.MemoryPlans.{source_plan};
    ghost use Rattle.lib_base.specs.Plan.{CountsCall, IsDue};

    ghost shown = { λ s. record { left = Some (drop s.at s.bytes); faults = s.plan.faults } };

    /// Fails exactly where the number of this call is due to fail.
    fn read(&mut self, into: &mut [u8]) -> Result<usize, Failed>
        ensures reads { Reads (⟦<MemSource as Source>⟧.shown self.old)
            (⟦<MemSource as Source>⟧.shown self.new) into.new result }
        ensures call { CountsCall (source_plan self.old) (source_plan self.new) }
        ensures fails { IsErr result ↔ IsDue (source_plan self.new) }
        ensures quiet { OnOk result ((⟦<MemSource as Source>⟧.shown self.new).faults
            ≡ (⟦<MemSource as Source>⟧.shown self.old).faults) }
    {
        self.plan.call()?;
        let count = copy_from(&self.bytes, self.at, into);
        self.at += count;
        Ok(count)
    }
}

/// Copies what fits from `bytes` at `at` to the front of `into`, and answers how much.
fn copy_from(bytes: &Bytes, at: usize, into: &mut [u8]) -> usize
    requires { at ≤ length bytes.now }
    ensures within { result ≤ length into.new }
    ensures moves { drop at bytes.now ≡ take result into.new ++ drop (at + result) bytes.now }
    ensures ends { result ≡ 0 → 0 < length into.new → drop (at + result) bytes.now ≡ [] }
    ensures inside { at + result ≤ length bytes.now }
    ensures fits { at + result < 2 ^ 64 }
{
    let rest = bytes.as_slice().split_at(at).1;
    let count = rest.len().min(into.len());
    into[..count].copy_from_slice(&rest[..count]);
    count
}
