//! What STREAMINFO says of all frames: how many samples they have, and their MD5 (RFC 9639 section 8.2).
ghost use Rattle.std.specs.Prelude.{◌≡◌, List};
ghost use Rattle.file_model.specs.FlacFile.{blocks_of, bytes_of, is_total, sound_at, sound_in};
ghost use Rattle.file_model.specs.FlacFrame.{FlacFrame};
ghost use Rattle.flac_stream.specs.Answers.{AnswersBreak};
ghost use Rattle.flac_stream.specs.Frames.{is_asked, WasFed};

use crate::digest::SoundDigest;
use crate::info::INFO_AT;
use crate::rules::breaks;
use file_model::flac_fields::{MD5_AT, TOTAL_AT};
use file_model::{FlacRule, Info};
use lib_base::Broken;

/// Tries what STREAMINFO says of frames of so many samples, of this digest.
pub(crate) fn check_end(info: &Info, count: u64, digest: SoundDigest) -> Result<(), Broken>
    ensures { let info = info.now in (frames : List FlacFrame) → blocks_of frames ≡ count
        → WasFed (is_asked info.md5) digest (bytes_of (sound_in info frames))
        → AnswersBreak (λ _. sound_in info frames) result (sound_at info frames) }
{
    if !is_total(info.total, count) {
        return Err(breaks(FlacRule::OtherTotal, INFO_AT + TOTAL_AT));
    }
    if !digest.meets(&info.md5) {
        return Err(breaks(FlacRule::OtherMd5, INFO_AT + MD5_AT));
    }
    Ok(())
}

/// Whether the frames have the total of samples, which is not known where it is 0.
fn is_total(total: u64, count: u64) -> bool
    ensures { result ≡ is_total total count }
{
    total == 0 || total == count
}
