//! Dropping the file of a take that is named no more.
ghost use Rattle.catalogue_core.specs.Sweeping.{Sweeps};

use crate::Library;
use keeper_store::Vault;

/// Drops the file of the take that the last commit released, if it released one: one call of the
/// vault, or none. Where the vault refuses, the key may hold its file further, and is not tried again.
pub fn sweep<V: Vault>(library: &mut Library, vault: &mut V)
    ensures { Sweeps library.old library.new (V.shown vault.old) (V.shown vault.new) }
{
    if let Some(take) = library.released.take() {
        // a file that stays has no row that names it
        let _ = vault.drop_blob(take);
    }
}
