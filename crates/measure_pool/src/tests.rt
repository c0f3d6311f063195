//! Worked sounds, which any number of workers measures alike. A script in whole numbers computed
//! energies and peaks from the definition.
ghost use Rattle.std.specs.Prelude.{◌≡◌, ◌≤◌, ◌<◌, ◌^◌, IfOk, All, length, vec_len};
ghost use Rattle.lib_base.specs.Sounds.{IsSample};
ghost use Rattle.lib_base.specs.declared.limits.TheConstants.{MOST_WORKERS};

use crate::plans::{Job, Plan};
use crate::{Gate, OpenGate, measure};
use lib_base::{Memory, PcmSound};
use std::alloc::Global;
use std::sync::atomic::{AtomicU64, Ordering};
use std::test::Fail;

/// Whether each tap of the second phase is above 0, from the first on.
const SECOND_PHASE_ABOVE: [bool; 12] = [
    false, true, false, true, false, true, true, false, true, false, true, false,
];

/// What the samples of a channel are.
#[derive(Clone, Copy)]
enum Samples {
    /// Noise, another one for each number.
    Noise(u32),
    /// Twelve samples of half of full scale, the last one at a place, with the signs of the second
    /// phase's taps: at that place all products add up.
    Taps(usize),
}

/// The sample of a channel at a place.
fn sample(samples: Samples, place: usize) -> i32
    ensures { IsSample 16 result }
{
    match samples {
        Samples::Noise(number) => {
            let mixed = ((place % 65_521) as u32).wrapping_mul(1_664_525) ^ number;
            upper_half(mixed.wrapping_mul(2_246_822_519).wrapping_add(number))
        }
        Samples::Taps(last) => {
            if place > last || last - place >= SECOND_PHASE_ABOVE.len() {
                0
            } else if SECOND_PHASE_ABOVE[last - place] {
                16_384
            } else {
                -16_384
            }
        }
    }
}

fn upper_half(state: u32) -> i32
    ensures { IsSample 16 result }
{
    (state >> 16) as i32 - 32_768
}

/// A channel of so many frames.
fn channel(alloc: Global, samples: Samples, frames: usize) -> Result<Vec<i32>, Memory>
    ensures within { IfOk result (λ v. All (IsSample 16) v.items) }
    ensures count { IfOk result (λ v. vec_len v ≡ frames) }
{
    let mut list = Vec::new(alloc);
    'places: for place in 0..frames {
        list.push(sample(samples, place))?;
    }
    Ok(list)
}

/// A sound of one channel.
fn mono(alloc: Global, samples: Samples, frames: usize) -> Result<PcmSound, Memory>
    requires { frames < 2 ^ 60 }
{
    let mut channels = Vec::new(alloc);
    channels.push(channel(alloc, samples, frames)?)?;
    Ok(PcmSound::new(16, channels))
}

/// Noise on two channels.
fn two(alloc: Global, frames: usize) -> Result<PcmSound, Memory>
    requires { frames < 2 ^ 60 }
{
    let mut channels = Vec::new(alloc);
    channels.push(channel(alloc, Samples::Noise(1), frames)?)?;
    channels.push(channel(alloc, Samples::Noise(2), frames)?)?;
    Ok(PcmSound::new(16, channels))
}

/// Noise on three channels.
fn three(alloc: Global, frames: usize) -> Result<PcmSound, Memory>
    requires { frames < 2 ^ 60 }
{
    let mut channels = Vec::new(alloc);
    channels.push(channel(alloc, Samples::Noise(1), frames)?)?;
    channels.push(channel(alloc, Samples::Noise(2), frames)?)?;
    channels.push(channel(alloc, Samples::Noise(3), frames)?)?;
    Ok(PcmSound::new(16, channels))
}

/// Noise on six channels.
fn six(alloc: Global, frames: usize) -> Result<PcmSound, Memory>
    requires { frames < 2 ^ 60 }
{
    let mut channels = Vec::new(alloc);
    channels.push(channel(alloc, Samples::Noise(1), frames)?)?;
    channels.push(channel(alloc, Samples::Noise(2), frames)?)?;
    channels.push(channel(alloc, Samples::Noise(3), frames)?)?;
    channels.push(channel(alloc, Samples::Noise(4), frames)?)?;
    channels.push(channel(alloc, Samples::Noise(5), frames)?)?;
    channels.push(channel(alloc, Samples::Noise(6), frames)?)?;
    Ok(PcmSound::new(16, channels))
}

#[test]
fn any_workers_measure_alike(rt: HostRuntime) -> Result<(), Fail> {
    let alloc = rt.alloc();
    for frames in [0, 1, 11, 12, 4_799, 4_800, 60_001] {
        let sounds = [
            mono(alloc, Samples::Noise(7), frames)?,
            two(alloc, frames)?,
            three(alloc, frames)?,
            six(alloc, frames)?,
        ];
        for sound in &sounds {
            let alone = measure(&rt, alloc, sound, 1, &OpenGate)?;
            for workers in [2, 3, 4, 5, 8, 64] {
                let shared = measure(&rt, alloc, sound, workers, &OpenGate)?;
                let channels = shared.channels;
                assert_eq!(rt;
                    shared.frames,
                    frames as u64,
                    "{channels} channels, {workers} workers"
                );
                assert_eq!(rt;
                    shared.peak,
                    alone.peak,
                    "{channels} channels, {workers} workers"
                );
                assert_eq!(rt;
                    shared.energies.as_slice(),
                    alone.energies.as_slice(),
                    "{channels} channels, {workers} workers"
                );
            }
        }
    }
    Ok(())
}

/// A steady half of full scale on the left, and a quarter below zero on the right.
fn steady(alloc: Global, frames: usize) -> Result<PcmSound, Memory>
    requires { frames < 2 ^ 60 }
{
    let mut channels = Vec::new(alloc);
    channels.push(vec![in alloc; 16_384; frames]?)?;
    channels.push(vec![in alloc; -8_192; frames]?)?;
    Ok(PcmSound::new(16, channels))
}

#[test]
fn sounds_are_measured(rt: HostRuntime) -> Result<(), Fail> {
    let alloc = rt.alloc();
    let two = measure(&rt, alloc, &steady(alloc, 9700)?, 2, &OpenGate)?;
    assert_eq!(rt; (two.channels, two.depth, two.frames), (2, 16, 9700));
    assert_eq!(rt;
        two.energies.as_slice(),
        [29_866_476_116_688_268_800, 23_515_800].as_slice()
    );
    let none = measure(&rt, alloc, &steady(alloc, 4799)?, 2, &OpenGate)?;
    assert_eq!(rt; (none.frames, none.energies.len()), (4799, 0));
    assert_eq!(rt; none.peak, 38_340_132_864);
    Ok(())
}

/// How many channels are gone over once, of how many others the energies are taken, and how many
/// stretches there are, where so many workers measure a sound.
fn shares(sound: &PcmSound, workers: usize) -> (u32, u32, u32)
    requires some { 1 ≤ workers }
    requires most { workers ≤ MOST_WORKERS }
{
    let plan = Plan::of(sound, workers);
    let mut shares = (0u32, 0u32, 0u32);
    for number in 0..plan.jobs() {
        match plan.job(number) {
            Job::Whole(_) => shares.0 = shares.0.saturating_add(1),
            Job::Segments(_) => shares.1 = shares.1.saturating_add(1),
            Job::Peak(_) => shares.2 = shares.2.saturating_add(1),
        }
    }
    shares
}

// 60,001 frames are long enough for three stretches.
#[test]
fn workers_share_channels_out(rt: HostRuntime) -> Result<(), Fail> {
    let alloc = rt.alloc();
    for (sound, workers, want) in [
        (mono(alloc, Samples::Noise(1), 60_001)?, 1, (1, 0, 0)),
        (mono(alloc, Samples::Noise(1), 60_001)?, 3, (0, 1, 2)),
        (two(alloc, 60_001)?, 2, (2, 0, 0)),
        (two(alloc, 60_001)?, 3, (0, 2, 4)),
        (two(alloc, 60_001)?, 4, (0, 2, 2)),
        (three(alloc, 60_001)?, 2, (2, 1, 1)),
        (six(alloc, 60_001)?, 3, (6, 0, 0)),
        (six(alloc, 60_001)?, 4, (4, 2, 2)),
        (six(alloc, 60_001)?, 5, (5, 1, 3)),
        (six(alloc, 60_001)?, 8, (0, 6, 6)),
        (six(alloc, 47_988)?, 4, (6, 0, 0)),
    ] {
        assert_eq!(rt; shares(&sound, workers), want, "{workers} workers");
    }
    Ok(())
}

/// Where the first stretch of a sound of one channel ends that eight workers measure.
fn first_seam(sound: &PcmSound) -> u64 {
    let plan = Plan::of(sound, 8);
    if plan.jobs() > 2 {
        if let Job::Peak(stretch) = plan.job(1) {
            return stretch.to;
        }
    }
    0
}

// The taps lie on both sides of the seam between two stretches, and past the end.
#[test]
fn a_peak_at_a_seam_is_heard(rt: HostRuntime) -> Result<(), Fail> {
    let alloc = rt.alloc();
    assert_eq!(rt;
        first_seam(&mono(alloc, Samples::Noise(1), 60_001)?),
        20_005
    );
    for (last, peak) in [
        (20_004, 16_571 << 22),
        (20_005, 16_571 << 22),
        (20_008, 16_571 << 22),
        (20_012, 16_571 << 22),
        (20_015, 16_571 << 22),
        (20_016, 16_571 << 22),
        (60_005, 13_574 << 22),
    ] {
        let sound = mono(alloc, Samples::Taps(last), 60_001)?;
        for workers in [1, 8] {
            let found = measure(&rt, alloc, &sound, workers, &OpenGate)?;
            assert_eq!(rt; found.peak, peak, "{last} at {workers} workers");
        }
    }
    Ok(())
}

/// A gate at which two jobs wait until each has seen the other.
#[derive(Drop)]
struct Meeting {
    first: AtomicU64,
    second: AtomicU64,
    met: AtomicU64,
}

impl Gate for Meeting {
    fn started(&self, job: u32) {
        let met = if job == 0 {
            meets(&self.first, &self.second)
        } else {
            meets(&self.second, &self.first)
        };
        if met {
            self.met.fetch_add(1, Ordering::SeqCst);
        }
    }
}

/// Sets a job's mark, and waits for the other's: whether it came.
fn meets(own: &AtomicU64, other: &AtomicU64) -> bool {
    own.store(1, Ordering::SeqCst);
    for _ in 0..100_000_000u32 {
        if other.load(Ordering::SeqCst) == 1 {
            return true;
        }
    }
    false
}

// A body that does one job after another waits in vain.
#[test]
fn two_jobs_meet(rt: HostRuntime) -> Result<(), Fail> {
    let alloc = rt.alloc();
    let gate = Meeting {
        first: AtomicU64::new(0),
        second: AtomicU64::new(0),
        met: AtomicU64::new(0),
    };
    measure(&rt, alloc, &steady(alloc, 4800)?, 2, &gate)?;
    assert_eq!(rt; gate.met.load(Ordering::SeqCst), 2);
    Ok(())
}
