//! A run of the program: its words, the opening of the library, and the command.
ghost use Rattle.std.specs.Prelude.{◌≡◌, ◌≢◌, ◌≤◌, ℕ, List, Some, Option, map, false, IfSome, string_bytes};
ghost use Rattle.lib_base.specs.Faults.{CountsFault};
ghost use Rattle.cli_words.specs.Commands.{command_of, IsWithin};
ghost use Rattle.catalogue_core.specs.Opening.{IsOpened};
ghost use Rattle.report_cli.specs.Running.{Course, Runs, CarriesOut, HasBadRow, Causes};
ghost use Rattle.report_cli.specs.Seen.{seen};
ghost use Rattle.report_cli.specs.Statuses.{code, IsOfCommand};

use crate::lines::{print_bad_row, print_usage};
use crate::serving::serve;
use crate::statuses::Status;
use catalogue_core::{Library, OpenRefusal};
use cli_words::{Command, read_command};
use keeper_store::{Keeper, Tables, Vault};
use lib_base::{Door, Memory, Sink, Source};
use library_http::session;
use std::alloc::Global;
use std::thread::Threads;

/// Runs the command that the words give, over these objects, and answers the exit status.
///
/// `session` opens the library of the keeper's tables, answers the requests of the source in order,
/// and writes their replies to the sink. `serve` does so for each connection that the door lets in,
/// one after another, and writes a line for each to the sink. Other words are no command.
pub fn run<R: Threads + Sync, S: Source, K: Sink, D: Keeper, V: Vault, O: Door>(
    rt: &R,
    alloc: Global,
    words: &[String],
    source: &mut S,
    sink: &mut K,
    keeper: &mut D,
    vault: &mut V,
    door: &mut O,
) -> u8
    requires { (O.shown door.old).is_out ≡ false }
    ensures runs { (course : Course) × Runs course (map string_bytes words.now)
        (seen (S.shown source.old) (K.shown sink.old) (D.shown keeper.old) (V.shown vault.old) (O.shown door.old))
        (seen (S.shown source.new) (K.shown sink.new) (D.shown keeper.new) (V.shown vault.new) (O.shown door.new))
        result }
    ensures causes { Causes (map string_bytes words.now)
        (seen (S.shown source.old) (K.shown sink.old) (D.shown keeper.old) (V.shown vault.old) (O.shown door.old))
        (seen (S.shown source.new) (K.shown sink.new) (D.shown keeper.new) (V.shown vault.new) (O.shown door.new))
        result }
    ensures none_out { (O.shown door.new).is_out ≡ false }
{
    match read_command(alloc, words) {
        Ok(Some(command)) => {
            run_command(rt, alloc, command, source, sink, keeper, vault, door).code()
        }
        Ok(None) => print_usage(sink).code(),
        Err(Memory) => Status::Memory.code(),
    }
}

/// Opens the library, and carries the command out over it.
fn run_command<R: Threads + Sync, S: Source, K: Sink, D: Keeper, V: Vault, O: Door>(
    rt: &R,
    alloc: Global,
    command: Command,
    source: &mut S,
    sink: &mut K,
    keeper: &mut D,
    vault: &mut V,
    door: &mut O,
) -> Status
    requires none_out { (O.shown door.old).is_out ≡ false }
    requires within { IsWithin command }
    ensures runs { (words : List (List ℕ)) → command_of words ≡ Some command → (course : Course) × Runs course words
        (seen (S.shown source.old) (K.shown sink.old) (D.shown keeper.old) (V.shown vault.old) (O.shown door.old))
        (seen (S.shown source.new) (K.shown sink.new) (D.shown keeper.new) (V.shown vault.new) (O.shown door.new))
        (code result) }
    ensures none_out { (O.shown door.new).is_out ≡ false }
    ensures no_usage { result ≢ Status.Usage }
    ensures of_source { CountsFault (result ≡ Status.SourceFault) (S.shown source.old).faults (S.shown source.new).faults }
    ensures of_sink { CountsFault (result ≡ Status.SinkFault) (K.shown sink.old).faults (K.shown sink.new).faults }
    ensures of_keeper { CountsFault (result ≡ Status.KeeperFault) (D.shown keeper.old).faults (D.shown keeper.new).faults }
    ensures of_vault { (V.shown vault.old).faults ≤ (V.shown vault.new).faults }
    ensures of_door { CountsFault (result ≡ Status.DoorFault) (O.shown door.old).faults (O.shown door.new).faults }
    ensures bad_row_cause { result ≡ Status.BadRow → IfSome (D.shown keeper.old).tables HasBadRow }
{
    match Library::open(rt, alloc, keeper) {
        Ok(library) => carry_out(
            rt, alloc, command, library, source, sink, keeper, vault, door,
        ),
        Err(OpenRefusal::KeeperFault) => Status::KeeperFault,
        Err(OpenRefusal::BadRow(bad)) => print_bad_row(alloc, bad, sink),
        Err(OpenRefusal::Memory) => Status::Memory,
    }
}

/// Carries a command out over a library that was opened.
fn carry_out<R: Threads + Sync, S: Source, K: Sink, D: Keeper, V: Vault, O: Door>(
    rt: &R,
    alloc: Global,
    command: Command,
    mut library: Library,
    source: &mut S,
    sink: &mut K,
    keeper: &mut D,
    vault: &mut V,
    door: &mut O,
) -> Status
    requires none_out { (O.shown door.old).is_out ≡ false }
    requires within { IsWithin command }
    ensures carries { (told : Option Tables) (opened : IsOpened told library)
        → CarriesOut command result opened.tables library
        (seen (S.shown source.old) (K.shown sink.old) (D.shown keeper.old) (V.shown vault.old) (O.shown door.old))
        (seen (S.shown source.new) (K.shown sink.new) (D.shown keeper.new) (V.shown vault.new) (O.shown door.new)) }
    ensures none_out { (O.shown door.new).is_out ≡ false }
    ensures own { IsOfCommand result }
    ensures of_source { CountsFault (result ≡ Status.SourceFault) (S.shown source.old).faults (S.shown source.new).faults }
    ensures of_sink { CountsFault (result ≡ Status.SinkFault) (K.shown sink.old).faults (K.shown sink.new).faults }
    ensures of_keeper { (D.shown keeper.old).faults ≤ (D.shown keeper.new).faults }
    ensures of_vault { (V.shown vault.old).faults ≤ (V.shown vault.new).faults }
    ensures of_door { CountsFault (result ≡ Status.DoorFault) (O.shown door.old).faults (O.shown door.new).faults }
{
    match command {
        Command::Session { workers, requests } => {
            let end = session(
                rt,
                alloc,
                &mut library,
                keeper,
                vault,
                source,
                sink,
                workers,
                requests,
            );
            Status::of_session(end.how)
        }
        Command::Serve {
            connections,
            workers,
            requests,
        } => serve(
            rt,
            alloc,
            &mut library,
            sink,
            keeper,
            vault,
            door,
            connections,
            workers,
            requests,
        ),
    }
}
