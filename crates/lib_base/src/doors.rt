//! Where connections come from.
ghost use Rattle.std.specs.Prelude.{OnOk, ◌≡◌, ◌↔◌, ◌⊎◌, ◌≤◌, ◌+◌, ℕ, List, [], Bool, true, false, length, Option, Some, OnErr, IsErr, IfOk, IsErrOf, IsTrue, is_ok, vec_capacity};
ghost use Rattle.lib_base.specs.Doors.{GivesConnection, EndsConnection};

use crate::plans::FaultPlan;
use crate::{Bytes, MemSink, MemSource, Memory, Outside, Sink, Source};
use std::alloc::Global;
use std::collections::VecDeque;

/// A door through which connections come, at most one at a time.
pub trait Door {
    type In: Source;

    type Out: Sink;

    ghost use Rattle.lib_base.specs.Doors.{DoorView};

    /// What it tells.
    ghost shown: { Self → DoorView };

    /// Takes the first connection out: its source, and an empty sink. A refusal takes none out.
    fn next(&mut self) -> Result<(Self::In, Self::Out), Outside>
        requires { (shown self.old).is_out ≡ false }
        ensures { GivesConnection Self.In.shown Self.Out.shown (shown self.old) (shown self.new) result };

    /// Ends the connection that is out, and keeps what its sink holds.
    fn back(&mut self, source: Self::In, sink: Self::Out)
        requires { (shown self.old).is_out ≡ true }
        ensures { EndsConnection (Self.In.shown source) (Self.Out.shown sink) (shown self.old) (shown self.new) };
}

/// A door over connections in memory, which tells those that are left and what the ended ones wrote.
#[derive(Debug, Drop)]
pub struct MemDoor {
    alloc: Global,
    waiting: VecDeque<Bytes>,
    ended: Vec<Bytes>,
    out: bool,
    plan: FaultPlan,
    failed_sources: u64,
    failed_sinks: u64,
    ghost room: { length waiting.items + length ended.items ≤ vec_capacity ended },
    ghost place: { IsTrue out → length waiting.items + length ended.items + 1 ≤ vec_capacity ended },
}

impl MemDoor {
    ghost use Rattle.lib_base.specs.MemoryPlans.{door_plan};
    ghost use Rattle.lib_base.specs.Plan.{first_plan};

    /// A door to these connections, with room for all that `back` keeps. `failing` numbers the calls
    /// of `next` that fail, from 1. Without a connection left, `next` fails as well.
    pub fn new(alloc: Global, inputs: Vec<Bytes>, failing: Vec<u32>) -> Result<MemDoor, Memory>
        ensures told { IfOk result (λ door. ⟦<MemDoor as Door>⟧.shown door ≡ record {
          waiting = Some inputs.items;
          ended = Some [];
          is_out = false;
          faults = 0;
          failed_sources = 0;
          failed_sinks = 0;
        }) }
        ensures plan { IfOk result (λ door. door_plan door ≡ first_plan failing.items) }
    {
        let ended = Vec::with_capacity(alloc, inputs.len())?;
        Ok(MemDoor {
            alloc,
            waiting: VecDeque::from_vec(inputs),
            ended,
            out: false,
            plan: FaultPlan::new(failing),
            failed_sources: 0,
            failed_sinks: 0,
        })
    }

    /// What each ended connection wrote, in the order of `back`.
    pub fn written(&self) -> &[Bytes]
        ensures { (⟦<MemDoor as Door>⟧.shown self.now).ended ≡ Some result.now }
    {
        self.ended.as_slice()
    }
}

impl Door for MemDoor {
    ghost use Rattle.lib_base.specs.MemoryPlans.{door_plan, source_plan, sink_plan, IsDone};
    ghost use Rattle.lib_base.specs.Plan.{first_plan, CountsCall, IsDue};

    type In = MemSource;

    type Out = MemSink;

    ghost shown = { λ d. record {
      waiting = Some d.waiting.items;
      ended = Some d.ended.items;
      is_out = d.out;
      faults = d.plan.faults;
      failed_sources = d.failed_sources;
      failed_sinks = d.failed_sinks;
    } };

    /// Fails exactly where the number of this call is due to fail or no connection is left. It wants
    /// no memory, and the halves never fail.
    fn next(&mut self) -> Result<(MemSource, MemSink), Outside>
        requires { (⟦<MemDoor as Door>⟧.shown self.old).is_out ≡ false }
        ensures gives { GivesConnection ⟦<MemSource as Source>⟧.shown ⟦<MemSink as Sink>⟧.shown
            (⟦<MemDoor as Door>⟧.shown self.old) (⟦<MemDoor as Door>⟧.shown self.new) result }
        ensures call { CountsCall (door_plan self.old) (door_plan self.new) }
        ensures fails { IsErr result ↔ (IsDue (door_plan self.new) ⊎ IsDone self.old) }
        ensures quiet { OnOk result ((⟦<MemDoor as Door>⟧.shown self.new).faults
            ≡ (⟦<MemDoor as Door>⟧.shown self.old).faults) }
        ensures memory { OnErr result (IsErrOf result Outside.Failed) }
        ensures fair_source { IfOk result (λ halves. source_plan halves.0 ≡ first_plan []) }
        ensures fair_sink { IfOk result (λ halves. sink_plan halves.1 ≡ first_plan []) }
    {
        if self.plan.call().is_err() {
            return Err(Outside::Failed);
        }
        let Some(bytes) = self.waiting.pop_front() else {
            self.plan.count_fault();
            return Err(Outside::Failed);
        };
        self.out = true;
        let source = MemSource::new(bytes, Vec::new(self.alloc));
        Ok((source, MemSink::new(self.alloc, Vec::new(self.alloc))))
    }

    fn back(&mut self, source: MemSource, sink: MemSink) {
        if source.faults() > 0 {
            self.failed_sources = self.failed_sources.saturating_add(1);
        }
        if sink.faults() > 0 {
            self.failed_sinks = self.failed_sinks.saturating_add(1);
        }
        self.out = false;
        if self.ended.push(sink.into_bytes()).is_err() {
            unreachable!()
        }
    }
}
