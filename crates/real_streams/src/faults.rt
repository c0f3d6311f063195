//! Faults, counted and said.
ghost use Rattle.std.specs.Prelude.{◌≡◌, ◌≤◌, ◌+◌, ◌-◌, ◌^◌, min};

use std::fmt::Display;
use std::marker::Model;

/// How many faults an object has had. The count stays at its last value.
#[derive(Drop)]
pub struct Faults {
    count: u64,
}

impl Model for Faults {
    ghost use Rattle.std.specs.Prelude.{ℕ};

    ghost Value = { ℕ };

    ghost view = { λ f. f.count };
}

impl Faults {
    pub fn none() -> Faults
        ensures { result ≡ 0 }
    {
        Faults { count: 0 }
    }

    /// Counts a fault, and says it.
    pub fn add<R: Eprint, O: Display + Drop, D: Display + Drop>(
        &mut self,
        rt: &R,
        object: O,
        reason: D,
    )
        ensures counts { self.new ≡ min (self.old + 1) (2 ^ 64 - 1) }
        ensures later { self.old ≤ self.new }
    {
        self.count = self.count.saturating_add(1);
        say(rt, object, reason);
    }

    pub fn count(&self) -> u64
        ensures { result ≡ self.now }
    {
        self.count
    }
}

/// Says on standard error what an object met, in one line. Where that fails nobody is left to tell.
pub fn say<R: Eprint, O: Display + Drop, D: Display + Drop>(rt: &R, object: O, reason: D) {
    let _ = eprintln!(rt; "loudlib: {object}: {reason}");
}
