//! The file of a staged command, put into the vault.
ghost use Rattle.std.specs.Prelude.{◌≡◌, Some, option_copied};
ghost use Rattle.catalogue_core.specs.declared.prepared.Staged.TheVariants as staging;
ghost use Rattle.catalogue_core.specs.Causes.{StagesBy};
ghost use Rattle.catalogue_core.specs.Kept.{numbers_of};
ghost use Rattle.catalogue_core.specs.Settling.{IsOwnStaged, PutsFile, StaysUnlessFailed, file_of};
ghost use Rattle.catalogue_core.specs.Staging.{LeavesUnlessFailed, SparesVault};

use crate::{Library, Prepared, Staged};
use json_bodies::refuse;
use keeper_store::Vault;
use lib_base::{Memory, Outside};
use library_model::{Command, Refusal};

/// Puts the file that a command brings into the vault under the next take, where the command is
/// accepted and brings one.
pub(crate) fn put_file<V: Vault>(
    library: &Library,
    command: &Command,
    staged: Staged,
    vault: &mut V,
) -> Result<Staged, Memory>
    requires { IsOwnStaged staged }
    ensures causes { StagesBy (V.shown vault.old).faults (V.shown vault.new).faults result }
    ensures stays { StaysUnlessFailed command.now staged (V.shown vault.old).faults (V.shown vault.new).faults result }
    ensures puts { PutsFile command.now (numbers_of library.now).take (V.shown vault.old) (V.shown vault.new) result }
    ensures untouched { LeavesUnlessFailed result vault.old vault.new }
    ensures spared { SparesVault command.now vault.old vault.new }
{
    let Some(file) = file_of(command) else {
        return Ok(staged);
    };
    match staged {
        Staged::Refused(reply) => Ok(Staged::Refused(reply)),
        Staged::Ready(ready) => put_ready(library, command, file, ready, vault),
    }
}

/// The file that a command brings, if it brings one.
fn file_of(command: &Command) -> Option<&[u8]>
    ensures { option_copied result ≡ file_of command.now }
{
    match command {
        Command::Import { bytes, .. } => Some(bytes.as_slice()),
        Command::Retake { bytes, .. } => Some(bytes.as_slice()),
        _ => None,
    }
}

/// Puts the file of what is ready. A refusal of the vault is answered `Vault` for a fault that it
/// counted, or is want of memory.
fn put_ready<V: Vault>(
    library: &Library,
    command: &Command,
    file: &[u8],
    ready: Prepared,
    vault: &mut V,
) -> Result<Staged, Memory>
    requires { file_of command.now ≡ Some file.now }
    ensures causes { StagesBy (V.shown vault.old).faults (V.shown vault.new).faults result }
    ensures stays { StaysUnlessFailed command.now (staging.Ready ready) (V.shown vault.old).faults (V.shown vault.new).faults result }
    ensures puts { PutsFile command.now (numbers_of library.now).take (V.shown vault.old) (V.shown vault.new) result }
    ensures untouched { LeavesUnlessFailed result vault.old vault.new }
    ensures spared { SparesVault command.now vault.old vault.new }
{
    // made before the vault is called: so no fault stands behind want of memory
    let vault_refusal = refuse(library.alloc, Refusal::Vault)?;
    match vault.put(library.rows.next_numbers().take, file) {
        Ok(()) => Ok(Staged::Ready(ready)),
        Err(Outside::Failed) => Ok(Staged::Refused(vault_refusal)),
        Err(Outside::Memory) => Err(Memory),
    }
}
