//! Cyclic redundancy checks, by tables.
ghost use Rattle.std.specs.Prelude.{◌≡◌, ◌≤◌, ◌++◌, ◌*◌, ◌/◌, ℕ, List, [], ◌∷◌, length, take};
ghost use Rattle.file_model.specs.Crc.{crc8, crc16};

use crate::tables::{frame_entry, header_entry};

/// The check of eight bits over a frame's header, whose bytes these are: the remainder of their
/// bits by x^8 + x^2 + x + 1.
pub fn crc8(bytes: &[u8]) -> u8
    ensures { result ≡ crc8 bytes.now }
{
    let mut check = 0u8;
    for byte in bytes {
        check = header_entry(check ^ *byte);
    }
    check
}

/// The check of sixteen bits over a frame, whose bytes these are: the remainder of their bits by
/// x^16 + x^15 + x^2 + 1.
pub fn crc16(bytes: &[u8]) -> u16
    ensures { result ≡ crc16 bytes.now }
{
    let whole = 8 * (bytes.len() / 8);
    let mut check = over_eights(bytes);
    for byte in bytes.split_at(whole).1 {
        check = after_byte(check, *byte);
    }
    check
}

/// The check over all but the last few bytes, eight in each step.
fn over_eights(bytes: &[u8]) -> u16
    ensures { result ≡ crc16 (take (8 * (length bytes.now / 8)) bytes.now) }
{
    let mut check = 0u16;
    for place in 0..bytes.len() / 8 {
        let rest = bytes.split_at(8 * place).1;
        check = after_eight(check, rest);
    }
    check
}

/// The check after one more byte.
#[inline(always)]
fn after_byte(check: u16, byte: u8) -> u16
    ensures { (before : List ℕ) → check ≡ crc16 before → result ≡ crc16 (before ++ byte ∷ []) }
{
    let place = (check / 256) as u8 ^ byte;
    frame_entry(0, place) ^ (check % 256 * 256)
}

/// The check after the first eight of more bytes: over each one, with zeros in place of those
/// behind it.
#[inline(always)]
fn after_eight(check: u16, next: &[u8]) -> u16
    requires { 8 ≤ length next.now }
    ensures { (before : List ℕ) → check ≡ crc16 before
        → result ≡ crc16 (before ++ take 8 next.now) }
{
    // these need not wait for the check so far, which goes with the first two bytes
    let back = frame_entry(5, next[2])
        ^ frame_entry(4, next[3])
        ^ frame_entry(3, next[4])
        ^ frame_entry(2, next[5])
        ^ frame_entry(1, next[6])
        ^ frame_entry(0, next[7]);
    let first = (check / 256) as u8 ^ next[0];
    let second = (check % 256) as u8 ^ next[1];
    frame_entry(7, first) ^ frame_entry(6, second) ^ back
}
