//! What is measured of a sound.
ghost use Rattle.std.specs.Prelude.{◌≡◌, ◌≤◌, length, IfOk};
ghost use Rattle.lib_base.specs.Sounds.{IsSound};
ghost use Rattle.lib_base.specs.declared.limits.TheConstants.{MOST_SAMPLES, MOST_WORKERS};
ghost use Rattle.sound_model.specs.Summaries.{measured, IsWithinBounds};
ghost use Rattle.measure_pool.specs.Jobs.{AreGathered};
ghost use Rattle.measure_pool.specs.Plans.{IsPlanOf, jobs_of};

use crate::found::zeros;
use crate::gates::Gate;
use crate::plans::Plan;
use crate::rounds::do_all;
use lib_base::{Energies, Measured, Memory, SEGMENT_FRAMES, Sound};
use std::alloc::Global;
use std::thread::Threads;

/// What is measured of a sound: its channels, the bits of a sample, its frames, the weighted energies
/// of its segments, and its peak (BS.1770-4 Annexes 1 and 2).
///
/// So many workers, 1 to 64, share the work, and what is measured is the same for any number of them.
/// The gate is told of each job as it starts. Where a thread can't be made, its job is done by the one
/// that asked for it; want of memory is the only refusal.
pub fn measure<R: Threads + Sync, S: Sound, G: Gate>(
    rt: &R,
    alloc: Global,
    sound: &S,
    workers: u32,
    gate: &G,
) -> Result<Measured, Memory>
    requires some { 1 ≤ workers }
    requires most { workers ≤ MOST_WORKERS }
    ensures measured { IfOk result (λ m.
        m ≡ measured (S.depth sound.now) (S.frames sound.now) (S.lists sound.now)) }
    ensures within { IfOk result (λ m. S.frames sound.now ≤ MOST_SAMPLES → IsWithinBounds m) }
{
    let plan = Plan::of(sound, workers as usize);
    let mut totals = zeros(alloc, sound.frames() as usize / SEGMENT_FRAMES)?;
    let peak = do_all(
        rt,
        alloc,
        sound,
        plan,
        workers as usize,
        gate,
        totals.as_mut_slice(),
    )?;
    Ok(measured_of(sound, plan, Energies::of(totals), peak))
}

/// What is measured of a sound, where all jobs of a plan found these energies and this peak.
fn measured_of<S: Sound>(sound: &S, plan: Plan, energies: Energies, peak: u64) -> Measured
    requires sound { IsSound (S.lists sound.now) (S.depth sound.now) (S.frames sound.now) }
    requires plan { IsPlanOf plan (length (S.lists sound.now)) (S.frames sound.now) }
    requires gathered { AreGathered (S.depth sound.now) (S.frames sound.now) (S.lists sound.now)
        plan (jobs_of plan) energies peak }
    ensures measured { result ≡ measured (S.depth sound.now) (S.frames sound.now) (S.lists sound.now) }
    ensures within { S.frames sound.now ≤ MOST_SAMPLES → IsWithinBounds result }
{
    Measured {
        channels: sound.channels() as u8,
        depth: sound.depth() as u8,
        frames: sound.frames(),
        energies,
        peak,
    }
}
