//! What is decided of a command.
ghost use Rattle.std.specs.Prelude.{◌≤◌};
ghost use Rattle.lib_base.specs.declared.limits.TheConstants.{MOST_WORKERS};
ghost use Rattle.library_model.specs.Stands.{BringsWithin};
ghost use Rattle.catalogue_core.specs.Plans.{DecidesOn, Leaves};

use crate::Library;
use crate::albums::{decide_new_album, decide_remove_album};
use crate::importing::decide_import;
use crate::plans::Decision;
use crate::regrouping::decide_regroup;
use crate::removing::decide_remove;
use crate::retaking::decide_retake;
use lib_base::{Memory, Steps};
use library_model::Command;
use measure_pool::Gate;
use std::sync::ledger::Ledger;
use std::thread::Threads;

/// What is decided of a command. Where it is accepted, the library has the room that its change wants.
pub(crate) fn decide<R: Threads + Sync, G: Gate, L: Ledger>(
    rt: &R,
    library: &mut Library,
    command: &Command,
    workers: u32,
    gate: &G,
    steps: &mut Steps<L>,
) -> Result<Decision, Memory>
    requires some { 1 ≤ workers }
    requires most { workers ≤ MOST_WORKERS }
    requires within { BringsWithin command.now }
    ensures decides { DecidesOn command.now library.old result }
    ensures leaves { Leaves library.old library.new result }
{
    match command {
        Command::NewAlbum { name } => decide_new_album(library, name),
        Command::Import { album, name, bytes } => {
            decide_import(
                rt,
                library,
                *album,
                name,
                bytes.as_slice(),
                workers,
                gate,
                steps,
            )
        }
        Command::Retake { recording, bytes } => {
            decide_retake(
                rt,
                library,
                *recording,
                bytes.as_slice(),
                workers,
                gate,
                steps,
            )
        }
        Command::Regroup { recording, album } => decide_regroup(library, *recording, *album, steps),
        Command::RemoveRecording { recording } => decide_remove(library, *recording, steps),
        Command::RemoveAlbum { album } => decide_remove_album(library, *album),
    }
}
