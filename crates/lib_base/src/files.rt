//! What every layer says of a file: its kind, a part of it, and its measured levels.
ghost use Rattle.std.specs.Prelude.{◌≡◌, ◌≤◌, ◌<◌, ◌+◌, ◌-◌, ◌^◌, length};
ghost use Rattle.lib_base.specs.Kinds.{kind_named};
ghost use Rattle.lib_base.specs.Sounds.{part};

use crate::Energies;

/// The bytes from `start` to before `end`.
#[derive(Clone, Copy, Debug, PartialEq, Eq)]
pub struct Span {
    pub start: usize,
    pub end: usize,
}

/// The bytes that lie in a span.
pub fn content_of(bytes: &[u8], span: Span) -> &[u8]
    requires ordered { span.start ≤ span.end }
    requires inside { span.end ≤ length bytes.now }
    ensures content { result.now ≡ part bytes.now span.start (span.end - span.start) }
    ensures short { span.start + length result.now < 2 ^ 63 }
{
    let rest = bytes.split_at(span.start).1;
    rest.split_at(span.end - span.start).0
}

/// The kinds of file that the library holds.
#[derive(Clone, Copy, Debug, PartialEq, Eq)]
pub enum Kind {
    Wave,
    Flac,
}

/// The kind that the first four bytes name: `RIFF` for a wave, `fLaC` for FLAC.
pub fn kind_of(bytes: &[u8]) -> Option<Kind>
    ensures { result ≡ kind_named bytes.now }
{
    match bytes {
        [b'R', b'I', b'F', b'F', ..] => Some(Kind::Wave),
        [b'f', b'L', b'a', b'C', ..] => Some(Kind::Flac),
        _ => None,
    }
}

/// What is measured of a sound.
///
/// The energies are those of its segments of 4,800 frames, weighted over the channels, and the peak
/// is in units of 2^-36 of full scale.
#[derive(Clone, Debug, Drop)]
pub struct Measured {
    pub channels: u8,
    pub depth: u8,
    pub frames: u64,
    pub energies: Energies,
    pub peak: u64,
}

/// The levels of a recording or of an album.
///
/// Loudness, momentary, short-term and true peak are in hundredths of LUFS or dBTP, the range in
/// hundredths of LU, the gain in hundredths of a decibel, and the peak in units of 2^-36 of full
/// scale. What can't be measured is absent.
#[derive(Clone, Copy, Debug, PartialEq, Eq)]
pub struct Summary {
    pub frames: u64,
    pub loudness: Option<i32>,
    pub range: Option<i32>,
    pub momentary: Option<i32>,
    pub short_term: Option<i32>,
    pub true_peak: Option<i32>,
    pub peak: u64,
    pub gain: Option<i32>,
}
