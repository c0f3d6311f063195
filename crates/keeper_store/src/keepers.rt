//! Where tables are kept.
ghost use Rattle.std.specs.Prelude.{◌≡◌, ◌↔◌, Some, IsErrOf, IfOk, OnOk};
ghost use Rattle.keeper_store.specs.Keepers.{Loads, Applies};
ghost use Rattle.lib_base.specs.Plan.{CountsCall, IsDue};

use crate::row_tables::RowTables;
use crate::{Batch, Tables};
use lib_base::{FaultPlan, Memory, Outside};

/// A keeper of tables.
pub trait Keeper {
    ghost use Rattle.keeper_store.specs.Keepers.{KeeperView};

    /// What it tells.
    ghost shown: { Self → KeeperView };

    /// Loads the tables, and leaves them.
    fn load(&mut self) -> Result<Tables, Outside>
        ensures { Loads (shown self.old) (shown self.new) result };

    /// Makes all the changes of the batch, one after another. A refusal makes none.
    fn apply(&mut self, batch: &Batch) -> Result<(), Outside>
        ensures { Applies batch.now.changes (shown self.old) (shown self.new) result };
}

/// A keeper in memory, which tells its tables.
#[derive(Debug, Drop)]
pub struct MemKeeper {
    tables: RowTables,
    plan: FaultPlan,
    applies: u64,
}

impl MemKeeper {
    ghost use Rattle.keeper_store.specs.Memory.{keeper_plan};

    /// A keeper of these tables, which takes no memory. `failing` numbers the calls of `load` and
    /// `apply` together that fail, from 1.
    pub fn new(tables: Tables, failing: Vec<u32>) -> MemKeeper
        ensures told { ⟦<MemKeeper as Keeper>⟧.shown result
            ≡ record { tables = Some tables; faults = 0; applies = 0 } }
        ensures plan { keeper_plan result ≡ record { failing = failing.items; calls = 0; faults = 0 } }
    {
        MemKeeper {
            tables: RowTables::of(tables),
            plan: FaultPlan::new(failing),
            applies: 0,
        }
    }

    /// A copy of the tables as they are, which counts as no call.
    pub fn tables(&self) -> Result<Tables, Memory>
        ensures { IfOk result (λ tables. (⟦<MemKeeper as Keeper>⟧.shown self.now).tables ≡ Some tables) }
    {
        self.tables.copy()
    }
}

impl Keeper for MemKeeper {
    ghost use Rattle.keeper_store.specs.Held.{held_tables};
    ghost use Rattle.keeper_store.specs.Memory.{keeper_plan};

    ghost shown = { λ k. record { tables = Some (held_tables k.tables); faults = k.plan.faults; applies = k.applies } };

    fn load(&mut self) -> Result<Tables, Outside>
        ensures loads { Loads (⟦<MemKeeper as Keeper>⟧.shown self.old) (⟦<MemKeeper as Keeper>⟧.shown self.new) result }
        ensures fails { IsErrOf result Outside.Failed ↔ IsDue (keeper_plan self.new) }
        ensures quiet { OnOk result ((⟦<MemKeeper as Keeper>⟧.shown self.new).faults
            ≡ (⟦<MemKeeper as Keeper>⟧.shown self.old).faults) }
        ensures plan { CountsCall (keeper_plan self.old) (keeper_plan self.new) }
    {
        if self.plan.call().is_err() {
            return Err(Outside::Failed);
        }
        let tables = self.tables.copy()?;
        Ok(tables)
    }

    fn apply(&mut self, batch: &Batch) -> Result<(), Outside>
        ensures applies { Applies batch.now.changes (⟦<MemKeeper as Keeper>⟧.shown self.old)
            (⟦<MemKeeper as Keeper>⟧.shown self.new) result }
        ensures fails { IsErrOf result Outside.Failed ↔ IsDue (keeper_plan self.new) }
        ensures quiet { OnOk result ((⟦<MemKeeper as Keeper>⟧.shown self.new).faults
            ≡ (⟦<MemKeeper as Keeper>⟧.shown self.old).faults) }
        ensures plan { CountsCall (keeper_plan self.old) (keeper_plan self.new) }
    {
        self.applies = self.applies.saturating_add(1);
        if self.plan.call().is_err() {
            return Err(Outside::Failed);
        }
        self.tables.make(batch)?;
        Ok(())
    }
}
