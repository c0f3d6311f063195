//! The peak over a stretch of places of any sound.
ghost use Rattle.std.specs.Prelude.{◌≡◌, ◌≤◌, ◌<◌, ◌+◌, ℕ, ℤ, List, length};
ghost use Rattle.lib_base.specs.Sounds.{part, samples_of};
ghost use Rattle.sound_model.specs.Peaks.{peak_over};
ghost use Rattle.true_peak.specs.Heard.{Heard};
ghost use Rattle.true_peak.specs.Windows.{history_at};

use crate::history::History;
use crate::runs::Run;
use lib_base::{PEAK_REACH, PIECE, Scratch, Sound};

/// The greatest size at the places from `from` to before `to`, in units of 2^-36 of full scale.
///
/// The places go eleven past the sound's end, and the samples before `from` count where they reach a
/// place. So the peaks of stretches that are put together give the peak of the whole.
pub fn peak_of_range<S: Sound>(
    sound: &S,
    channel: usize,
    from: u64,
    to: u64,
    scratch: &mut Scratch,
) -> u64
    requires channel { channel < length (S.lists sound.now) }
    requires order { from ≤ to }
    requires inside { to ≤ S.frames sound.now + PEAK_REACH }
    requires room { S.scratch_size sound.now ≤ length scratch.old.cells }
    ensures peak { result
        ≡ peak_over (S.depth sound.now) (samples_of (S.lists sound.now) channel) from to }
    ensures room { length scratch.new.cells ≡ length scratch.old.cells }
{
    let run = Run::behind(history_before(sound, channel, from, scratch));
    let end = to.min(length_of(sound, channel)).max(from);
    let run = over_sound(run, sound, channel, from, end, scratch);
    run.over_silence(to - end).greatest
}

/// How many samples a channel has.
fn length_of<S: Sound>(sound: &S, channel: usize) -> u64
    requires { channel < length (S.lists sound.now) }
    ensures frames { result ≡ S.frames sound.now }
    ensures length { result ≡ length (samples_of (S.lists sound.now) channel) }
{
    sound.frames()
}

/// The samples before a place of a sound.
fn history_before<S: Sound>(sound: &S, channel: usize, place: u64, scratch: &mut Scratch) -> History
    requires channel { channel < length (S.lists sound.now) }
    requires inside { place ≤ S.frames sound.now + PEAK_REACH }
    requires room { S.scratch_size sound.now ≤ length scratch.old.cells }
    ensures history { result.before
        ≡ history_at (S.depth sound.now) (samples_of (S.lists sound.now) channel) place }
    ensures room { length scratch.new.cells ≡ length scratch.old.cells }
{
    let start = place.saturating_sub(PEAK_REACH as u64);
    let count = (place - start).min(length_of(sound, channel) - start);
    let mut piece = [0; PEAK_REACH];
    let run = over_piece(
        Run::new(),
        sound,
        channel,
        start,
        &mut piece[..count as usize],
        scratch,
    );
    run.over_silence(place - start - count).history
}

/// The run over more places of a sound, from one that it came to to before another.
fn over_sound<S: Sound>(
    begun: Run,
    sound: &S,
    channel: usize,
    from: u64,
    to: u64,
    scratch: &mut Scratch,
) -> Run
    requires channel { channel < length (S.lists sound.now) }
    requires order { from ≤ to }
    requires inside { from < to → to ≤ S.frames sound.now }
    requires room { S.scratch_size sound.now ≤ length scratch.old.cells }
    ensures heard { (first : ℕ) → first ≤ from
        → Heard begun (S.depth sound.now) (samples_of (S.lists sound.now) channel) first from
        → Heard result (S.depth sound.now) (samples_of (S.lists sound.now) channel) first to }
    ensures room { length scratch.new.cells ≡ length scratch.old.cells }
{
    let mut run = begun;
    let mut place = from;
    let mut piece = [0; PIECE];
    while place < to {
        let count = (to - place).min(PIECE as u64);
        run = over_piece(
            run,
            sound,
            channel,
            place,
            &mut piece[..count as usize],
            scratch,
        );
        place += count;
    }
    run
}

/// The run over as many more places of a sound as the piece is long, which is written over.
fn over_piece<S: Sound>(
    begun: Run,
    sound: &S,
    channel: usize,
    start: u64,
    piece: &mut [i32],
    scratch: &mut Scratch,
) -> Run
    requires channel { channel < length (S.lists sound.now) }
    requires inside { start + length piece.old ≤ S.frames sound.now }
    requires room { S.scratch_size sound.now ≤ length scratch.old.cells }
    ensures heard { (all : List ℤ) (first place : ℕ) → first ≤ place
        → part (samples_of (S.lists sound.now) channel) start (length piece.old)
        ≡ part all place (length piece.old)
        → Heard begun (S.depth sound.now) all first place
        → Heard result (S.depth sound.now) all first (place + length piece.old) }
    ensures room { length scratch.new.cells ≡ length scratch.old.cells }
{
    sound.fill(channel, start, piece, scratch);
    begun.over_samples(piece, sound.depth())
}
