//! Levels and peaks as texts.
ghost use Rattle.std.specs.Prelude.{◌≡◌, IfOk};
ghost use Rattle.sound_model.specs.Texts.{decimal_text, gain_text, peak_text};

use lib_base::{Memory, Text};
use std::alloc::Global;

/// Hundredths as a decimal number of two places, as `-17.31`.
pub fn decimal_text(alloc: Global, value: i32) -> Result<Text, Memory>
    ensures { IfOk result (λ text. text ≡ decimal_text value) }
{
    let sign = if value.is_negative() { "-" } else { "" };
    let size = value.unsigned_abs();
    let text = format!(in alloc; "{sign}{}.{:02}", size / 100, size % 100)?;
    Ok(Text::of(text))
}

/// A gain in hundredths of a decibel, as `-17.31 dB` (ReplayGain 2.0).
pub fn gain_text(alloc: Global, gain: i32) -> Result<Text, Memory>
    ensures { IfOk result (λ text. text ≡ gain_text gain) }
{
    let number = decimal_text(alloc, gain)?.into_string();
    let text = format!(in alloc; "{number} dB")?;
    Ok(Text::of(text))
}

/// A peak in units of 2^-36 of full scale as a decimal number of six places, 1 being full scale and
/// the last place rounded up (ReplayGain 2.0).
pub fn peak_text(alloc: Global, peak: u64) -> Result<Text, Memory>
    ensures { IfOk result (λ text. text ≡ peak_text peak) }
{
    let millionths = (u128::from(peak) * 1_000_000).div_ceil(1 << 36);
    let text = format!(in alloc; "{}.{:06}", millionths / 1_000_000, millionths % 1_000_000)?;
    Ok(Text::of(text))
}
