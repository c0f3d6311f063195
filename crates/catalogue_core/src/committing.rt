//! Making a prepared change.
ghost use Rattle.catalogue_core.specs.Causes.{CommitsBy};
ghost use Rattle.catalogue_core.specs.Committing.{Commits, Fits};

use crate::{Library, Prepared};
use keeper_store::Keeper;
use lib_base::Outside;
use library_model::Reply;

/// Makes the change with one `apply` of the keeper, and answers its reply. A refusal of the keeper
/// changes nothing, and is answered `Keeper` for a fault that it counted, or `Memory`. The take that
/// the change takes out is released, and after a refusal none is. It takes no memory of its own.
pub fn commit<D: Keeper>(library: &mut Library, ready: Prepared, keeper: &mut D) -> Reply
    requires { Fits library.old ready }
    ensures commits { Commits ready library.old library.new (D.shown keeper.old) (D.shown keeper.new) result }
    ensures causes { CommitsBy result (D.shown keeper.old).faults (D.shown keeper.new).faults }
{
    let Prepared {
        batch,
        fresh,
        released,
        reply,
        keeper_refusal,
        memory_refusal,
    } = ready;
    library.released = None;
    match keeper.apply(&batch) {
        Ok(()) => {
            library.rows.make_all(batch.changes.into_vec(), fresh);
            library.released = released;
            reply
        }
        Err(Outside::Failed) => keeper_refusal,
        Err(Outside::Memory) => memory_refusal,
    }
}
