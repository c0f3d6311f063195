//! What STREAMINFO says (RFC 9639 section 8.2).
ghost use Rattle.std.specs.Prelude.{◌≡◌, ◌≤◌, ◌<◌, ◌+◌, ◌*◌, ◌^◌, ◌&&◌, nat_le, length, drop};
ghost use Rattle.bit_codec.specs.Reader.{left};
ghost use Rattle.file_model.specs.FlacFile.{info_in, bits_number};
ghost use Rattle.file_model.specs.Bits.{bits};
ghost use Rattle.lib_base.specs.Sounds.{part};
ghost use Rattle.file_model.specs.Outcomes.{Gives};
ghost use Rattle.flac_stream.specs.Infos.{info_ruled, place_in};

use crate::rules::holds;
use bit_codec::BitReader;
use file_model::flac_fields::{
    BLOCK_HEAD_BYTES, BLOCKS_AT, CHANNELS_AT, MD5_AT, RATE_AT, STREAMINFO_BYTES,
};
use file_model::{FlacRule, Info};
use lib_base::{GREATEST_DEPTH, LEAST_DEPTH, MOST_CHANNELS, SAMPLE_RATE};

/// Where the content of STREAMINFO begins.
pub(crate) const INFO_AT: usize = BLOCKS_AT + BLOCK_HEAD_BYTES;

/// What STREAMINFO says, where such a sound is read.
#[tactic(auto, unfolding(crate::specs::Infos::info_ruled))]
pub(crate) fn find_info(content: &[u8]) -> Result<Info, FlacRule>
    requires { length content.now ≡ STREAMINFO_BYTES }
    ensures { Gives (λ info. info) result (info_ruled content.now) }
{
    let info = read_info(content);
    holds(info.rate == SAMPLE_RATE, FlacRule::OtherRate)?;
    holds(
        info.channels <= u32::from(MOST_CHANNELS),
        FlacRule::OtherChannels,
    )?;
    holds(is_depth(info.depth), FlacRule::OtherDepth)?;
    Ok(info)
}

/// Whether samples of so many bits are read.
fn is_depth(depth: u32) -> bool
    ensures { result ≡ (nat_le LEAST_DEPTH depth && nat_le depth GREATEST_DEPTH) }
{
    LEAST_DEPTH <= depth && depth <= GREATEST_DEPTH
}

/// Where the field lies that breaks a rule.
pub(crate) fn place_in(rule: FlacRule) -> usize
    ensures { result ≡ place_in rule }
{
    match rule {
        FlacRule::OtherRate => INFO_AT + RATE_AT,
        _ => INFO_AT + CHANNELS_AT,
    }
}

/// The fields of STREAMINFO.
fn read_info(content: &[u8]) -> Info
    requires { length content.now ≡ STREAMINFO_BYTES }
    ensures { result ≡ info_in content.now }
{
    let mut reader = BitReader::at(content, RATE_AT);
    let rate = number_in(content, &mut reader, 80, 20);
    let channels = number_in(content, &mut reader, 100, 3) + 1;
    let depth = number_in(content, &mut reader, 103, 5) + 1;
    let high = number_in(content, &mut reader, 108, 4);
    let low = number_in(content, &mut reader, 112, 32);
    Info {
        rate,
        channels,
        depth,
        total: joined(high, low),
        md5: digest_in(content),
    }
}

/// The number in the next bits, of which the reader stands at the first.
fn number_in(content: &[u8], reader: &mut BitReader, from: u32, count: u32) -> u32
    requires stands { left reader.old ≡ drop from (bits content.now) }
    requires small { count ≤ 32 }
    requires inside { from + count ≤ 8 * length content.now }
    ensures value { result ≡ bits_number content.now from count }
    ensures moved { left reader.new ≡ drop (from + count) (bits content.now) }
    ensures small { result < 2 ^ count }
{
    match reader.take(count) {
        Ok(value) => value,
        Err(_) => unreachable!(),
    }
}

/// A number in two parts.
fn joined(high: u32, low: u32) -> u64
    requires { high < 2 ^ 4 }
    ensures { result ≡ high * 2 ^ 32 + low }
{
    u64::from(high) * 4_294_967_296 + u64::from(low)
}

/// The MD5 of the samples.
fn digest_in(content: &[u8]) -> [u8; 16]
    requires { length content.now ≡ STREAMINFO_BYTES }
    ensures { result ≡ part content.now MD5_AT 16 }
{
    let rest = content.split_at(MD5_AT).1;
    match rest.first_chunk::<16>() {
        Some(digest) => *digest,
        None => unreachable!(),
    }
}
