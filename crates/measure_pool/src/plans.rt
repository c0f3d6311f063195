//! How the measuring of a sound is cut into jobs.
ghost use Rattle.std.specs.Prelude.{◌≡◌, ◌≤◌, ◌<◌, ◌-◌, ◌*◌, ◌^◌, length};
ghost use Rattle.lib_base.specs.Sounds.{IsSound};
ghost use Rattle.lib_base.specs.declared.limits.TheConstants.{MOST_CHANNELS, MOST_WORKERS};

use lib_base::{MOST_WORKERS, PEAK_REACH, SAMPLE_RATE, Sound};

/// How many places a stretch has at least. The eleven before it, which it reads again, then count
/// little, even where they stand in a frame of a few thousand samples that is decoded again for them.
const LEAST_STRETCH: u64 = 16_384;

/// A channel with fewer places, those of a second, is gone over too fast for more jobs to gain
/// anything.
const SHORT: u64 = SAMPLE_RATE as u64;

/// What one job does.
#[derive(Clone, Copy, Debug)]
pub enum Job {
    /// Takes the energies and the peak of a channel, in one pass over it.
    Whole(usize),
    /// Takes the energies of a channel.
    Segments(usize),
    /// Takes the peak over a stretch of a channel's places.
    Peak(Stretch),
}

/// The places of a channel from one to before another.
#[derive(Clone, Copy, Debug)]
pub struct Stretch {
    pub channel: usize,
    pub from: u64,
    pub to: u64,
}

/// The jobs of a sound, numbered from 0: first one for each channel, then the stretches of each channel
/// whose job leaves the peak to them.
#[derive(Clone, Copy, Debug)]
pub struct Plan {
    channels: usize,
    /// How many channels, the first ones, are gone over once for both energies and peak.
    whole: usize,
    /// How many places a channel has, with those past its end.
    end: u64,
    /// How many stretches each other channel has.
    stretches: usize,
    /// How many places a stretch has, but the last one.
    size: u64,
    ghost whole_within: { whole ≤ channels },
    ghost some: { 0 < stretches },
    ghost covers: { end ≤ stretches * size },
    ghost few: { channels ≤ MOST_CHANNELS },
    ghost few_stretches: { stretches ≤ MOST_WORKERS },
}

impl Plan {
    ghost use Rattle.measure_pool.specs.Plans.{IsPlanOf, Fits, FitsStretch, cut_at, stretch_at, job_at, jobs_of};

    /// The plan for a sound that so many workers measure.
    ///
    /// As many channels as give each worker the same number are gone over once, which fills a piece of
    /// them once. Of the channels that are left, fewer than there are workers, the peaks are taken by
    /// stretches: so many that one call of all workers does all of these jobs, or two calls where there
    /// are too few workers for a stretch a channel.
    pub fn of<S: Sound>(sound: &S, workers: usize) -> Plan
        requires sound { IsSound (S.lists sound.now) (S.depth sound.now) (S.frames sound.now) }
        requires some { 1 ≤ workers }
        requires most { workers ≤ MOST_WORKERS }
        ensures { IsPlanOf result (length (S.lists sound.now)) (S.frames sound.now) }
    {
        let channels = sound.channels();
        let end = sound.frames() + PEAK_REACH as u64;
        let left = channels % workers;
        if left == 0 || end < SHORT {
            Plan::with(channels, channels, end, 1)
        } else {
            Plan::with(
                channels,
                channels - left,
                end,
                stretches_for(left, workers, end),
            )
        }
    }

    /// The plan with so many channels gone over once, and so many stretches of each other one.
    pub fn with(channels: usize, whole: usize, end: u64, stretches: usize) -> Plan
        requires channels { channels ≤ MOST_CHANNELS }
        requires whole { whole ≤ channels }
        requires end { end < 2 ^ 63 }
        requires some { 1 ≤ stretches }
        requires few { stretches ≤ MOST_WORKERS }
        ensures channels { result.channels ≡ channels }
        ensures end { result.end ≡ end }
    {
        Plan {
            channels,
            whole,
            end,
            stretches,
            size: end / stretches as u64 + 1,
        }
    }

    pub fn jobs(self) -> usize
        ensures jobs { result ≡ jobs_of self }
        ensures few { result ≤ 390 }
    {
        self.channels + (self.channels - self.whole) * self.stretches
    }

    /// What the job of that number does.
    pub fn job(self, number: usize) -> Job
        requires { number < jobs_of self }
        ensures job { result ≡ job_at self number }
        ensures fits { Fits self.channels self.end result }
    {
        if number < self.whole {
            Job::Whole(number)
        } else if number < self.channels {
            Job::Segments(number)
        } else {
            Job::Peak(self.stretch(number - self.channels))
        }
    }

    /// The stretch of that number, over all channels that have stretches.
    fn stretch(self, number: usize) -> Stretch
        requires { number < (self.channels - self.whole) * self.stretches }
        ensures stretch { result ≡ stretch_at self number }
        ensures fits { FitsStretch self.channels self.end result }
    {
        let stretch = number % self.stretches;
        Stretch {
            channel: self.whole + number / self.stretches,
            from: self.cut(stretch),
            to: self.cut(stretch + 1),
        }
    }

    /// The place at which a channel's stretch begins, and the one before it ends.
    fn cut(self, stretch: usize) -> u64
        ensures { result ≡ cut_at self stretch }
    {
        (stretch as u64).saturating_mul(self.size).min(self.end)
    }
}

/// How many stretches each of so many channels has, of so many places, for more workers than channels.
fn stretches_for(channels: usize, workers: usize, end: u64) -> usize
    requires some { 1 ≤ channels }
    requires most { workers ≤ MOST_WORKERS }
    ensures some { 1 ≤ result }
    ensures few { result ≤ MOST_WORKERS }
{
    let calls = if workers / channels < 2 { 2 } else { 1 };
    let wanted = (calls * workers / channels).saturating_sub(1);
    wanted
        .min((end / LEAST_STRETCH) as usize)
        .clamp(1, MOST_WORKERS as usize)
}
