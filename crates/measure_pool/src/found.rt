//! What jobs find, and how it is put together.
ghost use Rattle.std.specs.Prelude.{◌≡◌, ◌<◌, ◌+◌, ◌/◌, ◌^◌, length, replicate, IfOk};
ghost use Rattle.lib_base.specs.Sounds.{IsSound, samples_of};
ghost use Rattle.lib_base.specs.declared.limits.TheConstants.{SEGMENT_FRAMES};
ghost use Rattle.sound_model.specs.Segments.{segments_of};
ghost use Rattle.sound_model.specs.Weighted.{weighted};
ghost use Rattle.measure_pool.specs.Jobs.{found_by, AreFound, AreGathered};
ghost use Rattle.measure_pool.specs.Plans.{IsPlanOf, job_at};
ghost use Rattle.measure_pool.specs.Totals.{AreTotals};

use crate::plans::Plan;
use gate_blocks::{add_weighted, weight};
use lib_base::{Energies, Memory, Sound};
use std::alloc::Global;

/// What a job finds.
#[derive(Debug, Drop)]
pub struct Found {
    /// The energies of a channel's segments, with no weight, of a job that takes them.
    pub energies: Option<Energies>,
    /// The greatest size at the places that the job goes over, in units of 2^-36 of full scale; 0
    /// where it takes no peak.
    pub peak: u64,
}

/// As many totals as asked for, all 0.
pub fn zeros(alloc: Global, count: usize) -> Result<Vec<u128>, Memory>
    ensures { IfOk result (λ totals. totals.items ≡ replicate count 0) }
{
    let totals = vec![in alloc; 0; count]?;
    Ok(totals)
}

/// Adds what a round of jobs found to what those before it did. `totals` are the energies so far, and
/// `peak` is the greatest peak, which it answers anew.
pub fn add_round<S: Sound>(
    sound: &S,
    plan: Plan,
    first: usize,
    round: &[Result<Found, Memory>],
    totals: &mut [u128],
    peak: u64,
) -> Result<u64, Memory>
    requires sound { IsSound (S.lists sound.now) (S.depth sound.now) (S.frames sound.now) }
    requires plan { IsPlanOf plan (length (S.lists sound.now)) (S.frames sound.now) }
    requires room { first + length round.now < 2 ^ 63 }
    requires found { AreFound (S.depth sound.now) (S.lists sound.now) plan first round.now }
    requires gathered { AreGathered (S.depth sound.now) (S.frames sound.now) (S.lists sound.now) plan first totals.old peak }
    ensures { IfOk result (λ most.
        AreGathered (S.depth sound.now) (S.frames sound.now) (S.lists sound.now) plan (first + length round.now) totals.new most) }
{
    let mut most = peak;
    for (place, answer) in round.iter().enumerate() {
        match answer {
            Ok(found) => most = add_found(sound, plan, first + place, found, totals, most),
            Err(Memory) => return Err(Memory),
        }
    }
    Ok(most)
}

/// Adds what the job of that number found to what those before it did.
pub fn add_found<S: Sound>(
    sound: &S,
    plan: Plan,
    number: usize,
    found: &Found,
    totals: &mut [u128],
    peak: u64,
) -> u64
    requires sound { IsSound (S.lists sound.now) (S.depth sound.now) (S.frames sound.now) }
    requires plan { IsPlanOf plan (length (S.lists sound.now)) (S.frames sound.now) }
    requires found { found.now ≡ found_by (S.depth sound.now) (S.lists sound.now) (job_at plan number) }
    requires gathered { AreGathered (S.depth sound.now) (S.frames sound.now) (S.lists sound.now) plan number totals.old peak }
    ensures { AreGathered (S.depth sound.now) (S.frames sound.now) (S.lists sound.now) plan (number + 1) totals.new result }
{
    if let Some(energies) = &found.energies {
        add_channel(sound, number, energies.as_slice(), totals);
    }
    peak.max(found.peak)
}

/// Adds the energies of a channel, with its weight, to those of the channels before it.
fn add_channel<S: Sound>(sound: &S, channel: usize, energies: &[u128], totals: &mut [u128])
    requires sound { IsSound (S.lists sound.now) (S.depth sound.now) (S.frames sound.now) }
    requires channel { channel < length (S.lists sound.now) }
    requires energies { energies.now
        ≡ segments_of (weighted (S.depth sound.now) (samples_of (S.lists sound.now) channel)) }
    requires count { length totals.old ≡ S.frames sound.now / SEGMENT_FRAMES }
    requires totals { AreTotals (S.depth sound.now) (S.lists sound.now) channel totals.old }
    ensures { AreTotals (S.depth sound.now) (S.lists sound.now) (channel + 1) totals.new }
{
    add_weighted(totals, energies, weight(sound.channels(), channel));
}
