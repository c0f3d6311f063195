//! What a file is, and what is measured of it.
ghost use Rattle.std.specs.Prelude.{◌≡◌, ◌≤◌, IfOk};
ghost use Rattle.lib_base.specs.declared.limits.TheConstants.{MOST_WORKERS};
ghost use Rattle.file_model.specs.Files.{Reads};
ghost use Rattle.file_model.specs.Pcm.{Pcm};
ghost use Rattle.file_model.specs.Reading.{accepted as reads_as};
ghost use Rattle.tag_writer.specs.Answers.{IsAcceptedOf};
ghost use Rattle.library_model.specs.Findings.{measured_of};
ghost use Rattle.library_model.specs.Stands.{IsWithinLimit};
ghost use Rattle.catalogue_core.specs.Examining.{IsExamined};

use album_merge::TrackTally;
use lib_base::{Broken, Measured, Memory, Refused};
use measure_pool::{Gate, measure};
use std::alloc::Global;
use std::thread::Threads;
use tag_writer::{Accepted, AnySound, accept};

/// What a file is found to be.
#[derive(Debug, Drop)]
pub enum Examined {
    /// A file that the library accepts: what is measured of its sound, and the tally of that.
    Accepted(Measured, TrackTally),
    /// A file that breaks a rule.
    Broken(Broken),
}

/// What a file within the body limit is, and what so many workers measure of it where it is
/// accepted.
pub fn examine<R: Threads + Sync, G: Gate>(
    rt: &R,
    alloc: Global,
    file: &[u8],
    workers: u32,
    gate: &G,
) -> Result<Examined, Memory>
    requires some { 1 ≤ workers }
    requires most { workers ≤ MOST_WORKERS }
    requires within { IsWithinLimit file.now }
    ensures { IfOk result (λ found. IsExamined file.now found) }
{
    match accept(alloc, file) {
        Ok(accepted) => {
            let measured = measure_file(rt, alloc, file, &accepted, workers, gate)?;
            let tally = TrackTally::make(rt, alloc, &measured)?;
            Ok(Examined::Accepted(measured, tally))
        }
        Err(Refused::Broken(fault)) => Ok(Examined::Broken(fault)),
        Err(Refused::Memory) => Err(Memory),
    }
}

/// What so many workers measure of an accepted file. No sample is kept: each part of the sound is
/// read from the file's bytes.
fn measure_file<R: Threads + Sync, G: Gate>(
    rt: &R,
    alloc: Global,
    file: &[u8],
    accepted: &Accepted,
    workers: u32,
    gate: &G,
) -> Result<Measured, Memory>
    requires read { IsAcceptedOf file.now accepted.now }
    requires some { 1 ≤ workers }
    requires most { workers ≤ MOST_WORKERS }
    ensures { IfOk result (λ measured. (sound : Pcm) → Reads file.now (reads_as sound)
        → measured ≡ measured_of sound) }
{
    measure(rt, alloc, &AnySound::over(file, accepted), workers, gate)
}
