//! The rules of a wave file.
ghost use Rattle.std.specs.Prelude.{◌≡◌};
ghost use Rattle.file_model.specs.Rules.{rule_of};

use lib_base::Rule;

/// The rules that a wave file can break, in the order of their numbers, the first of which is 1.
///
/// A file that breaks several is refused by the first of them.
#[derive(Clone, Copy, Debug, PartialEq, Eq)]
pub enum WaveRule {
    /// Fewer than 12 bytes, or others than `RIFF` at the start.
    NoRiff = 1,
    /// Others than `WAVE` at byte 8.
    OtherForm,
    /// The size field is more than 1 off.
    OtherSize,
    /// A chunk passes the end of the file.
    CutChunk,
    /// A second `fmt `, `data` or `bext` chunk.
    RepeatedChunk,
    /// No `fmt ` chunk.
    NoFormat,
    /// The `fmt ` content ends before the form that its tag names.
    ShortFormat,
    /// Another form of samples than PCM.
    OtherFormat,
    /// No channel, or more than six.
    OtherChannels,
    /// Another rate than 48,000 Hz.
    OtherRate,
    /// Another depth than 16 or 24 bits.
    OtherDepth,
    /// A frame takes another number of bytes than its samples.
    OtherAlign,
    /// No `data` chunk.
    NoData,
    /// The `data` content is no whole number of frames.
    PartFrame,
    /// The `bext` content has fewer than 602 bytes.
    ShortBext,
}

impl WaveRule {
    /// The rule by family and number, as it is printed.
    pub fn rule(self) -> Rule
        ensures { result ≡ rule_of self }
    {
        Rule::V(self as u8)
    }
}
