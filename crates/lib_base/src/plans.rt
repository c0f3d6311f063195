//! Which calls of an object in memory fail.
ghost use Rattle.std.specs.Prelude.{◌≡◌, ◌↔◌, ◌≤◌, ◌+◌, ◌-◌, ◌^◌, min, IsErr, IsTrue, OnOk, OnErr, Contains};
ghost use Rattle.lib_base.specs.Plan.{Plan};

use crate::Failed;
use std::marker::Model;

/// The calls that fail, by their numbers counted from 1, and the counts of calls and of faults so
/// far. Both counts stay at their last value.
#[derive(Debug, Drop)]
pub struct FaultPlan {
    failing: Vec<u32>,
    calls: u64,
    faults: u64,
}

impl Model for FaultPlan {
    ghost use Rattle.lib_base.specs.Plan.{Plan};

    ghost Value = { Plan };

    ghost view = { λ p. record { failing = p.failing.items; calls = p.calls; faults = p.faults } };
}

impl FaultPlan {
    /// No call and no fault yet.
    pub fn new(failing: Vec<u32>) -> FaultPlan
        ensures { result ≡ record { failing = failing.items; calls = 0; faults = 0 } }
    {
        FaultPlan {
            failing,
            calls: 0,
            faults: 0,
        }
    }

    /// Counts a call, and refuses it exactly where its number is due to fail, which counts a fault.
    pub fn call(&mut self) -> Result<(), Failed>
        ensures failing { self.new.failing ≡ self.old.failing }
        ensures calls { self.new.calls ≡ min (self.old.calls + 1) (2 ^ 64 - 1) }
        ensures fails { IsErr result ↔ Contains self.old.failing self.new.calls }
        ensures later { self.old.faults ≤ self.new.faults }
        ensures ok { OnOk result (self.new.faults ≡ self.old.faults) }
        ensures err { OnErr result (self.new.faults ≡ min (self.old.faults + 1) (2 ^ 64 - 1)) }
    {
        self.calls = self.calls.saturating_add(1);
        if is_due(&self.failing, self.calls) {
            self.faults = self.faults.saturating_add(1);
            return Err(Failed);
        }
        Ok(())
    }

    /// Counts a fault that no number asked for.
    pub(crate) fn count_fault(&mut self)
        ensures counts { self.new ≡ record self.old { faults = min (self.old.faults + 1) (2 ^ 64 - 1) } }
        ensures later { self.old.faults ≤ self.new.faults }
    {
        self.faults = self.faults.saturating_add(1);
    }

    /// How many faults there were.
    pub fn faults(&self) -> u64
        ensures { result ≡ self.now.faults }
    {
        self.faults
    }

    /// How many calls there were.
    pub fn calls(&self) -> u64
        ensures { result ≡ self.now.calls }
    {
        self.calls
    }
}

fn is_due(failing: &[u32], call: u64) -> bool
    ensures { IsTrue result ↔ Contains failing.now call }
{
    failing.iter().any(|number| u64::from(*number) == call)
}
