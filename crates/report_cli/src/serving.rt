//! Serving: connections let in, answered and handed back, one after another.
ghost use Rattle.std.specs.Prelude.{◌≡◌, ◌≤◌, ◌+◌, List, [], ◌∷◌, length, false, Ok, Err, IfOk, OnErr, IsErrOf};
ghost use Rattle.std.specs.Io.KnownBytes.{Appends};
ghost use Rattle.lib_base.specs.Faults.{CountsFault};
ghost use Rattle.lib_base.specs.declared.limits.TheConstants.{MOST_WORKERS};
ghost use Rattle.lib_base.specs.declared.outcomes.Outside.TheVariants as outside;
ghost use Rattle.report_cli.specs.Connections.{Connection, Serves, HandsBack, EndsWith, TurnWrites, lines_from};
ghost use Rattle.library_http.specs.World.{World, world};

use crate::lines::print_end;
use crate::statuses::Status;
use catalogue_core::Library;
use keeper_store::{Keeper, Vault};
use lib_base::{Door, Outside, Sink};
use library_http::{SessionEnd, session};
use std::alloc::Global;
use std::thread::Threads;

/// Serves so many connections of the door, one after another, with at most so many requests each, and
/// writes a line for each. What ends a connection lets it go on.
pub(crate) fn serve<R: Threads + Sync, K: Sink, D: Keeper, V: Vault, O: Door>(
    rt: &R,
    alloc: Global,
    library: &mut Library,
    sink: &mut K,
    keeper: &mut D,
    vault: &mut V,
    door: &mut O,
    connections: u32,
    workers: u32,
    requests: u32,
) -> Status
    requires none_out { (O.shown door.old).is_out ≡ false }
    requires some { 1 ≤ workers }
    requires most { workers ≤ MOST_WORKERS }
    ensures serves { (served : List Connection) × Serves requests served (O.shown door.old) (O.shown door.new)
        (world library.old (D.shown keeper.old) (V.shown vault.old)) (world library.new (D.shown keeper.new) (V.shown vault.new))
        × EndsWith result connections served (K.shown sink.old).written (K.shown sink.new).written }
    ensures of_sink { CountsFault (result ≡ Status.SinkFault) (K.shown sink.old).faults (K.shown sink.new).faults }
    ensures of_door { CountsFault (result ≡ Status.DoorFault) (O.shown door.old).faults (O.shown door.new).faults }
{
    for served in 0..connections {
        let turn = serve_next(
            rt,
            alloc,
            library,
            sink,
            keeper,
            vault,
            door,
            served + 1,
            workers,
            requests,
        );
        match turn {
            Ok(()) => {}
            Err(status) => return status,
        }
    }
    Status::Ended
}

/// Serves the connection of that number, and writes its line.
fn serve_next<R: Threads + Sync, K: Sink, D: Keeper, V: Vault, O: Door>(
    rt: &R,
    alloc: Global,
    library: &mut Library,
    sink: &mut K,
    keeper: &mut D,
    vault: &mut V,
    door: &mut O,
    number: u32,
    workers: u32,
    requests: u32,
) -> Result<(), Status>
    requires none_out { (O.shown door.old).is_out ≡ false }
    requires some { 1 ≤ workers }
    requires most { workers ≤ MOST_WORKERS }
    ensures serves { (served : List Connection) × Serves requests served (O.shown door.old) (O.shown door.new)
        (world library.old (D.shown keeper.old) (V.shown vault.old)) (world library.new (D.shown keeper.new) (V.shown vault.new))
        × TurnWrites number result served (K.shown sink.old).written (K.shown sink.new).written }
    ensures of_sink { CountsFault (IsErrOf result Status.SinkFault) (K.shown sink.old).faults (K.shown sink.new).faults }
    ensures of_door { CountsFault (IsErrOf result Status.DoorFault) (O.shown door.old).faults (O.shown door.new).faults }
{
    match serve_connection(rt, alloc, library, keeper, vault, door, workers, requests) {
        Ok(end) => match print_end(alloc, number, end, sink) {
            Ok(()) => Ok(()),
            Err(Outside::Failed) => Err(Status::SinkFault),
            Err(Outside::Memory) => Err(Status::Memory),
        },
        Err(Outside::Failed) => Err(Status::DoorFault),
        Err(Outside::Memory) => Err(Status::Memory),
    }
}

/// Lets a connection in, answers its session, and hands it back.
fn serve_connection<R: Threads + Sync, D: Keeper, V: Vault, O: Door>(
    rt: &R,
    alloc: Global,
    library: &mut Library,
    keeper: &mut D,
    vault: &mut V,
    door: &mut O,
    workers: u32,
    requests: u32,
) -> Result<SessionEnd, Outside>
    requires none_out { (O.shown door.old).is_out ≡ false }
    requires some { 1 ≤ workers }
    requires most { workers ≤ MOST_WORKERS }
    ensures served { IfOk result (λ end. (c : Connection) × (c.how ≡ end.how) × (c.answered ≡ end.answered)
        × Serves requests (c ∷ []) (O.shown door.old) (O.shown door.new)
        (world library.old (D.shown keeper.old) (V.shown vault.old)) (world library.new (D.shown keeper.new) (V.shown vault.new))) }
    ensures refused { OnErr result (Serves requests [] (O.shown door.old) (O.shown door.new)
        (world library.old (D.shown keeper.old) (V.shown vault.old)) (world library.new (D.shown keeper.new) (V.shown vault.new))) }
    ensures of_door { CountsFault (IsErrOf result outside.Failed) (O.shown door.old).faults (O.shown door.new).faults }
{
    let (mut source, mut sink) = door.next()?;
    let end = session(
        rt,
        alloc,
        library,
        keeper,
        vault,
        &mut source,
        &mut sink,
        workers,
        requests,
    );
    door.back(source, sink);
    Ok(end)
}
