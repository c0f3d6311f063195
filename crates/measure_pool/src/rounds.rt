//! Rounds of jobs, each round in threads that end before the next one begins.
ghost use Rattle.std.specs.Prelude.{◌≡◌, ◌≤◌, ◌<◌, ◌+◌, ◌/◌, length, replicate, vec_len, IfOk};
ghost use Rattle.lib_base.specs.Sounds.{IsSound};
ghost use Rattle.lib_base.specs.declared.limits.TheConstants.{SEGMENT_FRAMES};
ghost use Rattle.measure_pool.specs.Jobs.{found_by, AreFound, AreGathered};
ghost use Rattle.measure_pool.specs.Plans.{IsPlanOf, job_at, jobs_of};

use crate::found::{Found, add_round};
use crate::gates::Gate;
use crate::jobs::do_job;
use crate::plans::Plan;
use lib_base::{Memory, Sound};
use std::alloc::Global;
use std::thread;
use std::thread::Threads;

/// Does all jobs of a plan, at most as many at once as there are workers. It adds the energies to
/// `totals`, which are 0, and answers the greatest peak.
pub fn do_all<R: Threads + Sync, S: Sound, G: Gate>(
    rt: &R,
    alloc: Global,
    sound: &S,
    plan: Plan,
    workers: usize,
    gate: &G,
    totals: &mut [u128],
) -> Result<u64, Memory>
    requires sound { IsSound (S.lists sound.now) (S.depth sound.now) (S.frames sound.now) }
    requires plan { IsPlanOf plan (length (S.lists sound.now)) (S.frames sound.now) }
    requires some { 1 ≤ workers }
    requires zeros { totals.old ≡ replicate (S.frames sound.now / SEGMENT_FRAMES) 0 }
    ensures { IfOk result (λ most.
        AreGathered (S.depth sound.now) (S.frames sound.now) (S.lists sound.now) plan (jobs_of plan) totals.new most) }
{
    let jobs = plan.jobs();
    let mut first = 0;
    let mut most = 0;
    'rounds: while first < jobs {
        let count = workers.min(jobs - first);
        let round = do_round(rt, alloc, sound, plan, gate, first, count)?;
        most = add_round(sound, plan, first, round.as_slice(), totals, most)?;
        first += count;
    }
    Ok(most)
}

/// Does so many jobs from a first one on, each in a thread of its own where one can be made, and
/// answers what each of them found, in order.
fn do_round<R: Threads + Sync, S: Sound, G: Gate>(
    rt: &R,
    alloc: Global,
    sound: &S,
    plan: Plan,
    gate: &G,
    first: usize,
    count: usize,
) -> Result<Vec<Result<Found, Memory>>, Memory>
    requires plan { IsPlanOf plan (length (S.lists sound.now)) (S.frames sound.now) }
    requires inside { first + count ≤ jobs_of plan }
    ensures count { IfOk result (λ round. vec_len round ≡ count) }
    ensures found { IfOk result (λ round.
        AreFound (S.depth sound.now) (S.lists sound.now) plan first round.items) }
{
    let job = |place: usize| -> Result<Found, Memory>
        requires { IsPlanOf plan (length (S.lists sound.now)) (S.frames sound.now)
            × (first + place < jobs_of plan) }
    { start_job(alloc, sound, plan, gate, first, place) };
    let round = thread::map_indices(rt, alloc, count, &job)?;
    Ok(round)
}

/// Tells the gate that a job starts, and does it: the one at a place of a round.
fn start_job<S: Sound, G: Gate>(
    alloc: Global,
    sound: &S,
    plan: Plan,
    gate: &G,
    first: usize,
    place: usize,
) -> Result<Found, Memory>
    requires plan { IsPlanOf plan (length (S.lists sound.now)) (S.frames sound.now) }
    requires inside { first + place < jobs_of plan }
    ensures { IfOk result (λ found.
        found ≡ found_by (S.depth sound.now) (S.lists sound.now) (job_at plan (first + place))) }
{
    let number = first + place;
    gate.started(number as u32);
    do_job(alloc, sound, plan.job(number))
}
