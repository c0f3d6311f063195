//! Deciding a request, and taking all that accepting it wants.
ghost use Rattle.std.specs.Prelude.{◌≤◌, IfOk};
ghost use Rattle.lib_base.specs.declared.limits.TheConstants.{MOST_WORKERS};
ghost use Rattle.kept_replies.specs.Tokens.{text_of};
ghost use Rattle.library_model.specs.State.{State};
ghost use Rattle.library_model.specs.Stands.{BringsWithin};
ghost use Rattle.catalogue_core.specs.Causes.{StagesBy};
ghost use Rattle.catalogue_core.specs.Kept.{IsFresh, Keeps};
ghost use Rattle.catalogue_core.specs.Requests.{asked_by};
ghost use Rattle.catalogue_core.specs.Staging.{LeavesUnlessFailed, SparesVault, StagedFrom, Stages};

use crate::deciding::decide;
use crate::putting::put_file;
use crate::settling::settle;
use crate::{Library, Request, Staged};
use keeper_store::Vault;
use lib_base::{Memory, Steps};
use measure_pool::Gate;
use std::sync::ledger::Ledger;
use std::thread::Threads;

/// Decides a request of a fresh token, whose name has its form and whose file is within the body
/// limit. Where it is accepted, its file is put into the vault under the next take, and its change
/// waits for `commit`, which takes no memory. What the library keeps is unchanged.
///
/// So many workers, 1 to 64, measure a sound, and the gate is told of each of their jobs as it
/// starts. `steps` counts the reads of tallies.
pub fn stage<R: Threads + Sync, V: Vault, G: Gate, L: Ledger>(
    rt: &R,
    library: &mut Library,
    request: Request,
    vault: &mut V,
    workers: u32,
    gate: &G,
    steps: &mut Steps<L>,
) -> Result<Staged, Memory>
    requires some { 1 ≤ workers }
    requires most { workers ≤ MOST_WORKERS }
    requires fresh { IsFresh library.old (text_of request.token) }
    requires within { BringsWithin request.command }
    ensures staged { (s : State) → Keeps library.old s → IfOk result (StagedFrom s (asked_by request)) }
    ensures stages { Stages request.command library.old library.new (V.shown vault.old) (V.shown vault.new) result }
    ensures causes { StagesBy (V.shown vault.old).faults (V.shown vault.new).faults result }

    // The vault does not change at a refusal other than `Vault`.
    ensures untouched { LeavesUnlessFailed result vault.old vault.new }

    // Nor is it called for a command that puts no file.
    ensures spared { SparesVault request.command vault.old vault.new }
{
    let Request {
        token,
        mark,
        command,
    } = request;
    let decision = decide(rt, library, &command, workers, gate, steps)?;
    let staged = settle(library.alloc, token, mark, decision)?;
    put_file(library, &command, staged, vault)
}
