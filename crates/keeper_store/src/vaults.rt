//! Where blobs are kept.
ghost use Rattle.std.specs.Prelude.{OnOk, ◌≡◌, ◌≤◌, ◌<◌, ◌^◌, ◌↔◌, ℕ, Option, Some, None, OnErr, IsErr, IsErrOf};
ghost use Rattle.std.specs.Ordering.{nat_cmp};
ghost use Rattle.std.specs.BTreeMap.{get as held_at};
ghost use Rattle.keeper_store.specs.Vaults.{Puts, Gets, Drops};
ghost use Rattle.lib_base.specs.Plan.{CountsCall, IsDue};

use lib_base::{Bytes, Failed, FaultPlan, Outside};
use std::alloc::Global;
use std::collections::BTreeMap;

/// A vault of blobs, each under a key.
pub trait Vault {
    ghost use Rattle.keeper_store.specs.Vaults.{VaultView};

    /// What it tells.
    ghost shown: { Self → VaultView };

    /// Puts the bytes under the key, in place of any before. A refusal leaves anything or nothing
    /// under it.
    fn put(&mut self, key: u32, bytes: &[u8]) -> Result<(), Outside>
        ensures { Puts key bytes.now (shown self.old) (shown self.new) result };

    /// What the key holds, None where it holds nothing.
    fn get(&mut self, key: u32) -> Result<Option<Bytes>, Outside>
        ensures { Gets key (shown self.old) (shown self.new) result };

    /// Leaves nothing under the key. A refusal leaves anything or nothing under it.
    fn drop_blob(&mut self, key: u32) -> Result<(), Failed>
        ensures { Drops key (shown self.old) (shown self.new) result };
}

/// A vault in memory, which tells what its keys hold.
#[derive(Debug, Drop)]
pub struct MemVault {
    alloc: Global,
    blobs: BTreeMap<u32, Bytes>,
    plan: FaultPlan,
    changes: u64,
    ghost counter_held: { plan.calls < 2 ^ 64 },
}

impl MemVault {
    ghost use Rattle.keeper_store.specs.Memory.{vault_plan};

    /// A vault in which no key holds anything, and which takes no memory. `failing` numbers the
    /// calls that fail, from 1.
    pub fn new(alloc: Global, failing: Vec<u32>) -> MemVault
        ensures told { ⟦<MemVault as Vault>⟧.shown result
            ≡ record { blobs = Some (λ _. None); faults = 0; calls = 0; changes = 0 } }
        ensures plan { vault_plan result ≡ record { failing = failing.items; calls = 0; faults = 0 } }
    {
        MemVault {
            alloc,
            blobs: BTreeMap::new(alloc),
            plan: FaultPlan::new(failing),
            changes: 0,
        }
    }

    /// How many calls there were.
    pub fn calls(&self) -> u64
        ensures { result ≡ (⟦<MemVault as Vault>⟧.shown self.now).calls }
    {
        self.plan.calls()
    }

    /// What the keys hold.
    pub fn blobs(&self) -> &BTreeMap<u32, Bytes>
        ensures { (⟦<MemVault as Vault>⟧.shown self.now).blobs
            ≡ Some (λ key. held_at nat_cmp result.now key) }
    {
        &self.blobs
    }
}

impl Vault for MemVault {
    ghost use Rattle.keeper_store.specs.Memory.{vault_plan};

    ghost shown = { λ v. record {
      blobs = Some (λ key. held_at nat_cmp v.blobs key);
      faults = v.plan.faults;
      calls = v.plan.calls;
      changes = v.changes;
    } };

    fn put(&mut self, key: u32, bytes: &[u8]) -> Result<(), Outside>
        ensures puts { Puts key bytes.now (⟦<MemVault as Vault>⟧.shown self.old) (⟦<MemVault as Vault>⟧.shown self.new) result }
        ensures fails { IsErrOf result Outside.Failed ↔ IsDue (vault_plan self.new) }
        ensures quiet { OnOk result ((⟦<MemVault as Vault>⟧.shown self.new).faults
            ≡ (⟦<MemVault as Vault>⟧.shown self.old).faults) }
        ensures plan { CountsCall (vault_plan self.old) (vault_plan self.new) }
    {
        self.changes = self.changes.saturating_add(1);
        if self.plan.call().is_err() {
            return Err(Outside::Failed);
        }
        let copy = Bytes::copy(self.alloc, bytes)?;
        self.blobs.insert(key, copy)?;
        Ok(())
    }

    fn get(&mut self, key: u32) -> Result<Option<Bytes>, Outside>
        ensures gets { Gets key (⟦<MemVault as Vault>⟧.shown self.old) (⟦<MemVault as Vault>⟧.shown self.new) result }
        ensures fails { IsErrOf result Outside.Failed ↔ IsDue (vault_plan self.new) }
        ensures quiet { OnOk result ((⟦<MemVault as Vault>⟧.shown self.new).faults
            ≡ (⟦<MemVault as Vault>⟧.shown self.old).faults) }
        ensures plan { CountsCall (vault_plan self.old) (vault_plan self.new) }
    {
        if self.plan.call().is_err() {
            return Err(Outside::Failed);
        }
        match self.blobs.get(&key) {
            Some(bytes) => Ok(Some(bytes.clone()?)),
            None => Ok(None),
        }
    }

    fn drop_blob(&mut self, key: u32) -> Result<(), Failed>
        ensures drops { Drops key (⟦<MemVault as Vault>⟧.shown self.old) (⟦<MemVault as Vault>⟧.shown self.new) result }
        ensures fails { IsErr result ↔ IsDue (vault_plan self.new) }
        ensures quiet { OnOk result ((⟦<MemVault as Vault>⟧.shown self.new).faults
            ≡ (⟦<MemVault as Vault>⟧.shown self.old).faults) }
        ensures plan { CountsCall (vault_plan self.old) (vault_plan self.new) }
    {
        self.changes = self.changes.saturating_add(1);
        self.plan.call()?;
        let _ = self.blobs.remove(&key);
        Ok(())
    }
}
