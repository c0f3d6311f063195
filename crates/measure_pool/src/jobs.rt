//! The work of one job, with scratch and meters of its own.
ghost use Rattle.std.specs.Prelude.{◌≡◌, ◌≤◌, ◌<◌, ◌+◌, [], length, take, IfOk, None};
ghost use Rattle.lib_base.specs.Sounds.{samples_of};
ghost use Rattle.lib_base.specs.declared.limits.TheConstants.{PEAK_REACH};
ghost use Rattle.sound_model.specs.Peaks.{peak_over};
ghost use Rattle.measure_pool.specs.Jobs.{found_in, found_by};
ghost use Rattle.measure_pool.specs.Lines.{IsFed, takes_peak, fed_count, room_of};
ghost use Rattle.measure_pool.specs.Plans.{Fits, FitsStretch};

use crate::found::Found;
use crate::lines::Line;
use crate::plans::{Job, Stretch};
use lib_base::{Memory, PIECE, Scratch, Sound};
use std::alloc::Global;
use true_peak::peak_of_range;

/// Does a job on a sound.
pub fn do_job<S: Sound>(alloc: Global, sound: &S, job: Job) -> Result<Found, Memory>
    requires { Fits (length (S.lists sound.now)) (S.frames sound.now + PEAK_REACH) job }
    ensures { IfOk result (λ found. found ≡ found_by (S.depth sound.now) (S.lists sound.now) job) }
{
    match job {
        Job::Whole(channel) => {
            let line = Line::of_both(alloc, sound.frames())?;
            go_over(alloc, sound, channel, PIECE, line)
        }
        Job::Segments(channel) => {
            let line = Line::of_energies(alloc, sound.frames())?;
            go_over(alloc, sound, channel, PIECE, line)
        }
        Job::Peak(stretch) => take_peak(alloc, sound, stretch),
    }
}

/// Takes the peak over a stretch.
fn take_peak<S: Sound>(alloc: Global, sound: &S, stretch: Stretch) -> Result<Found, Memory>
    requires { FitsStretch (length (S.lists sound.now)) (S.frames sound.now + PEAK_REACH) stretch }
    ensures { IfOk result (λ found. found ≡ record {
      energies = None;
      peak = peak_over (S.depth sound.now) (samples_of (S.lists sound.now) stretch.channel) stretch.from stretch.to;
    }) }
{
    let mut scratch = Scratch::new(alloc, sound.scratch_size())?;
    let Stretch { channel, from, to } = stretch;
    let peak = peak_of_range(sound, channel, from, to, &mut scratch);
    Ok(Found {
        energies: None,
        peak,
    })
}

/// What a line that was fed nothing finds in a whole channel, in pieces of that size.
fn go_over<S: Sound>(
    alloc: Global,
    sound: &S,
    channel: usize,
    size: usize,
    mut line: Line,
) -> Result<Found, Memory>
    requires channel { channel < length (S.lists sound.now) }
    requires some { 0 < size }
    requires count { fed_count line ≡ 0 }
    requires room { room_of line ≡ S.frames sound.now }
    requires unfed { IsFed line (S.depth sound.now) [] }
    ensures { IfOk result (λ found.
        found ≡ found_in (takes_peak line) (S.depth sound.now) (samples_of (S.lists sound.now) channel)) }
{
    let mut scratch = Scratch::new(alloc, sound.scratch_size())?;
    let mut samples = vec![in alloc; 0; size]?;
    let mut filtered = vec![in alloc; 0; size]?;
    feed_channel(
        sound,
        channel,
        samples.as_mut_slice(),
        filtered.as_mut_slice(),
        &mut scratch,
        &mut line,
    );
    Ok(line.into_found())
}

/// Feeds a whole channel to a line, through the two buffers.
fn feed_channel<S: Sound>(
    sound: &S,
    channel: usize,
    samples: &mut [i32],
    filtered: &mut [i32],
    scratch: &mut Scratch,
    line: &mut Line,
)
    requires channel { channel < length (S.lists sound.now) }
    requires some { 0 < length samples.old }
    requires equal { length samples.old ≡ length filtered.old }
    requires scratch { S.scratch_size sound.now ≤ length scratch.old.cells }
    requires count { fed_count line.old ≡ 0 }
    requires room { room_of line.old ≡ S.frames sound.now }
    requires unfed { IsFed line.old (S.depth sound.now) [] }
    ensures fed { IsFed line.new (S.depth sound.now) (samples_of (S.lists sound.now) channel) }
    ensures peak { takes_peak line.new ≡ takes_peak line.old }
{
    let frames = sound.frames();
    let mut start = 0;
    'pieces: while start < frames {
        let count = (samples.len() as u64).min(frames - start) as usize;
        feed_piece(
            sound,
            channel,
            start,
            &mut samples[..count],
            &mut filtered[..count],
            scratch,
            line,
        );
        start += count as u64;
    }
}

/// Feeds the part of a channel that begins at `start` and is as long as the buffers.
fn feed_piece<S: Sound>(
    sound: &S,
    channel: usize,
    start: u64,
    samples: &mut [i32],
    filtered: &mut [i32],
    scratch: &mut Scratch,
    line: &mut Line,
)
    requires channel { channel < length (S.lists sound.now) }
    requires equal { length samples.old ≡ length filtered.old }
    requires inside { start + length samples.old ≤ S.frames sound.now }
    requires scratch { S.scratch_size sound.now ≤ length scratch.old.cells }
    requires count { fed_count line.old ≡ start }
    requires room { room_of line.old ≡ S.frames sound.now }
    ensures fed { IsFed line.old (S.depth sound.now) (take start (samples_of (S.lists sound.now) channel))
        → IsFed line.new (S.depth sound.now) (take (start + length samples.old) (samples_of (S.lists sound.now) channel)) }
    ensures count { fed_count line.new ≡ start + length samples.old }
    ensures room { room_of line.new ≡ room_of line.old }
    ensures peak { takes_peak line.new ≡ takes_peak line.old }
    ensures scratch { length scratch.new.cells ≡ length scratch.old.cells }
{
    sound.fill(channel, start, samples, scratch);
    line.feed(samples, sound.depth(), filtered);
}
