//! Where bytes go to.
ghost use Rattle.std.specs.Prelude.{◌≡◌, ◌↔◌, ◌≤◌, ◌<◌, ◌+◌, ◌-◌, ℕ, List, [], Option, Some, OnOk, OnErr, IsErrOf};
ghost use Rattle.lib_base.specs.Writes.{Writes, WritesAll};

use crate::plans::FaultPlan;
use crate::{Bytes, Outside};
use std::alloc::Global;

/// A sink of bytes.
pub trait Sink {
    ghost use Rattle.lib_base.specs.Writes.{SinkView};

    /// What it tells.
    ghost shown: { Self → SinkView };

    /// Appends bytes from the front of `piece` and answers how many: at least one, unless the piece
    /// is empty. A refusal appends none.
    fn write(&mut self, piece: &[u8]) -> Result<usize, Outside>
        ensures { Writes (shown self.old) (shown self.new) piece.now result };
}

/// Writes all the bytes. A refusal leaves a part of them written, from the front.
pub fn write_all<K: Sink>(sink: &mut K, bytes: &[u8]) -> Result<(), Outside>
    ensures { WritesAll (K.shown sink.old) (K.shown sink.new) bytes.now result }
{
    let mut done = 0usize;
    while done < bytes.len() {
        done += sink.write(bytes.split_at(done).1)?;
    }
    Ok(())
}

/// A sink into memory, which tells what was written.
#[derive(Debug, Drop)]
pub struct MemSink {
    bytes: Vec<u8>,
    plan: FaultPlan,
}

impl MemSink {
    ghost use Rattle.lib_base.specs.MemoryPlans.{sink_plan};
    ghost use Rattle.lib_base.specs.Plan.{first_plan};

    /// An empty sink. `failing` numbers the writes that fail, from 1.
    pub fn new(alloc: Global, failing: Vec<u32>) -> MemSink
        ensures told { ⟦<MemSink as Sink>⟧.shown result ≡ record { written = Some []; faults = 0 } }
        ensures plan { sink_plan result ≡ first_plan failing.items }
    {
        MemSink {
            bytes: Vec::new(alloc),
            plan: FaultPlan::new(failing),
        }
    }

    /// The bytes written.
    pub fn written(&self) -> &[u8]
        ensures { (⟦<MemSink as Sink>⟧.shown self.now).written ≡ Some result.now }
    {
        self.bytes.as_slice()
    }

    pub(crate) fn faults(&self) -> u64
        ensures { result ≡ (⟦<MemSink as Sink>⟧.shown self.now).faults }
    {
        self.plan.faults()
    }

    pub(crate) fn into_bytes(self) -> Bytes
        ensures { (⟦<MemSink as Sink>⟧.shown self).written ≡ Some result }
    {
        Bytes::of(self.bytes)
    }
}

impl Sink for MemSink {
    ghost use Rattle.lib_base.specs.MemoryPlans.{sink_plan};
    ghost use Rattle.lib_base.specs.Plan.{CountsCall, IsDue};

    ghost shown = { λ s. record { written = Some s.bytes.items; faults = s.plan.faults } };

    /// Fails exactly where the number of this call is due to fail. It may want memory at any other.
    fn write(&mut self, piece: &[u8]) -> Result<usize, Outside>
        ensures writes { Writes (⟦<MemSink as Sink>⟧.shown self.old) (⟦<MemSink as Sink>⟧.shown self.new)
            piece.now result }
        ensures call { CountsCall (sink_plan self.old) (sink_plan self.new) }
        ensures fails { IsErrOf result Outside.Failed ↔ IsDue (sink_plan self.new) }
        ensures quiet { OnOk result ((⟦<MemSink as Sink>⟧.shown self.new).faults
            ≡ (⟦<MemSink as Sink>⟧.shown self.old).faults) }
    {
        if self.plan.call().is_err() {
            return Err(Outside::Failed);
        }
        self.bytes.extend_from_slice(piece)?;
        Ok(piece.len())
    }
}
