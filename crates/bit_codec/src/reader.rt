//! A reader of bits.
ghost use Rattle.std.specs.Prelude.{◌≡◌, ◌≤◌, ◌<◌, ◌+◌, ◌-◌, ◌*◌, ◌/◌, ◌%◌, ◌^◌, ℕ, Bool, List, [], ◌∷◌, length, take, drop, min, Ok, Err, IfOk, OnErr, MatchOption, IfSome};
ghost use Rattle.file_model.specs.Bits.{bits, number};
ghost use Rattle.file_model.specs.Fields.{field, signed_field, unary_at, rice_at, held, lead, coded_more, coded_at, align_at};
ghost use Rattle.file_model.specs.Outcomes.{Gives};
ghost use Rattle.bit_codec.specs.Windows.{IsWindow, held_behind, rice_by_parts};

use crate::windows::{highest, joined, rice_value, with_sign, word};
use file_model::BitFault;

/// Reads fields from bytes, the high bit of each byte first.
///
/// A call that answers a fault leaves the reader where it stood.
#[derive(Clone, Copy, Debug)]
pub struct BitReader<'a> {
    bytes: &'a [u8],
    byte: usize,
    /// how many bits of that byte were read
    bit: u32,
    ghost in_byte: { bit < 8 },
    ghost in_bytes: { 8 * byte + bit ≤ 8 * length bytes.now },
}

#[tactic(auto, unfolding(crate::specs::Reader::source, crate::specs::Reader::place, crate::specs::Reader::left))]
impl<'a> BitReader<'a> {
    ghost use Rattle.bit_codec.specs.Reader.{source, place, left};

    /// A reader that stands at the start of a byte, or at the end of the bytes.
    pub fn at(bytes: &'a [u8], byte: usize) -> BitReader<'a>
        requires { byte ≤ length bytes.now }
        ensures gives { left result ≡ bits (drop byte bytes.now) }
        ensures whole { source result ≡ bytes.now }
        ensures moved { place result ≡ 8 * byte }
    {
        BitReader {
            bytes,
            byte,
            bit: 0,
        }
    }

    /// The number of whole bytes from the start of the bytes to where the reader stands, which is
    /// at a whole byte.
    pub fn byte(&self) -> usize
        requires { place self.now % 8 ≡ 0 }
        ensures place { 8 * result ≡ place self.now }
        ensures within { result ≤ length (source self.now) }
        ensures rest { left self.now ≡ bits (drop result (source self.now)) }
    {
        self.byte
    }
}

impl BitReader<'_> {
    ghost use Rattle.bit_codec.specs.Reader.{source, place, left};

    /// The number in the next `count` bits.
    #[inline]
    pub fn take(&mut self, count: u32) -> Result<u32, BitFault>
        requires { count ≤ 32 }
        ensures gives { Gives (λ value. (value, left self.new)) result
            (field count (left self.old)) }
        ensures small { IfOk result (λ value. value < 2 ^ count) }
        ensures whole { source self.new ≡ source self.old }
        ensures moved { place self.new + length (left self.new) ≡ 8 * length (source self.new) }
        ensures kept { OnErr result (left self.new ≡ left self.old) }
    {
        match self.window() {
            Some(window) => {
                self.skip(count);
                Ok(highest(window, count) as u32)
            }
            None => self.take_bit_by_bit(count),
        }
    }

    /// The number with a sign, in two's complement, in the next `count` bits. It is 0 for no bits.
    #[inline]
    #[tactic(auto, unfolding(file_model::specs::Fields::signed_field))]
    pub fn signed(&mut self, count: u32) -> Result<i32, BitFault>
        requires { count ≤ 32 }
        ensures gives { Gives (λ value. (value, left self.new)) result
            (signed_field count (left self.old)) }
        ensures whole { source self.new ≡ source self.old }
        ensures moved { place self.new + length (left self.new) ≡ 8 * length (source self.new) }
        ensures kept { OnErr result (left self.new ≡ left self.old) }
    {
        let value = self.take(count)?;
        Ok(with_sign(value, count))
    }

    /// How many zeros stand before the next one, which is read too. The count is held to the
    /// greatest u64.
    pub fn unary(&mut self) -> Result<u64, BitFault>
        ensures gives { Gives (λ value. (value, left self.new)) result
            (held (unary_at (left self.old))) }
        ensures whole { source self.new ≡ source self.old }
        ensures moved { place self.new + length (left self.new) ≡ 8 * length (source self.new) }
        ensures kept { OnErr result (left self.new ≡ left self.old) }
    {
        let mut ahead = *self;
        let zeros = ahead.pass_zeros();
        let count = ahead.unary_behind(zeros)?;
        *self = ahead;
        Ok(count)
    }

    /// A Rice value with `low` low bits, held to the greatest u64.
    #[inline]
    pub fn rice(&mut self, low: u32) -> Result<u64, BitFault>
        requires { low ≤ 30 }
        ensures gives { Gives (λ value. (value, left self.new)) result
            (held (rice_at low (left self.old))) }
        ensures whole { source self.new ≡ source self.old }
        ensures moved { place self.new + length (left self.new) ≡ 8 * length (source self.new) }
        ensures kept { OnErr result (left self.new ≡ left self.old) }
    {
        if let Some(window) = self.window() {
            let quotient = window.leading_zeros();
            let width = quotient + 1 + low;
            if width + self.bit <= 64 {
                self.skip(width);
                return Ok(rice_value(window, quotient, low));
            }
        }
        self.long_rice(low)
    }

    /// Goes to the next whole byte. True where the bits up to it are 0.
    pub fn align(&mut self) -> bool
        ensures gives { (result, left self.new) ≡ align_at (left self.old) }
        ensures whole { source self.new ≡ source self.old }
        ensures moved { place self.new + length (left self.new) ≡ 8 * length (source self.new) }
        ensures place { place self.new % 8 ≡ 0 }
    {
        let padding = (8 - self.bit) % 8;
        match self.take(padding) {
            Ok(passed) => passed == 0,
            Err(_) => unreachable!(),
        }
    }

    /// A coded number: in the form of UTF-8, of up to seven bytes.
    pub fn coded_number(&mut self) -> Result<u64, BitFault>
        ensures gives { Gives (λ value. (value, left self.new)) result (coded_at (left self.old)) }
        ensures whole { source self.new ≡ source self.old }
        ensures moved { place self.new + length (left self.new) ≡ 8 * length (source self.new) }
        ensures kept { OnErr result (left self.new ≡ left self.old) }
    {
        let mut ahead = *self;
        let value = ahead.coded_value()?;
        *self = ahead;
        Ok(value)
    }
}

/// A window of eight bytes, and single bits.
#[tactic(auto, unfolding(crate::specs::Reader::source, crate::specs::Reader::place, crate::specs::Reader::left))]
impl BitReader<'_> {
    ghost use Rattle.bit_codec.specs.Reader.{source, place, left};

    /// The next bits on top of a window, where eight bytes are there.
    #[inline(always)]
    fn window(&self) -> Option<u64>
        ensures { IfSome result (IsWindow (left self.now) self.now.bit) }
    {
        if self.bytes.len() < self.byte + 8 {
            return None;
        }
        let rest = self.bytes.split_at(self.byte).1;
        Some(word(rest) << self.bit)
    }

    /// Goes past so many bits.
    #[inline(always)]
    fn skip(&mut self, count: u32)
        requires few { count ≤ 64 }
        requires there { count ≤ length (left self.old) }
        ensures rest { left self.new ≡ drop count (left self.old) }
        ensures whole { source self.new ≡ source self.old }
    {
        let bit = self.bit + count;
        *self = BitReader {
            bytes: self.bytes,
            byte: self.byte + (bit / 8) as usize,
            bit: bit % 8,
        };
    }

    /// The next bit.
    fn next_bit(&mut self) -> Option<bool>
        ensures gives { MatchOption result (left self.old ≡ [])
            (λ bit. left self.old ≡ bit ∷ left self.new) }
        ensures whole { source self.new ≡ source self.old }
    {
        if self.bytes.len() <= self.byte {
            return None;
        }
        let bit = (self.bytes[self.byte] >> (7 - self.bit)) % 2 == 1;
        self.skip(1);
        Some(bit)
    }
}

/// How fields are read: by a window of eight bytes where so many are there, else bit by bit.
impl BitReader<'_> {
    ghost use Rattle.bit_codec.specs.Reader.{source, place, left};

    #[cold]
    fn take_bit_by_bit(&mut self, count: u32) -> Result<u32, BitFault>
        requires { count ≤ 32 }
        ensures gives { Gives (λ value. (value, left self.new)) result
            (field count (left self.old)) }
        ensures whole { source self.new ≡ source self.old }
        ensures kept { OnErr result (left self.new ≡ left self.old) }
    {
        let mut ahead = *self;
        let mut value = 0;
        for _ in 0..count {
            let Some(bit) = ahead.next_bit() else {
                return Err(BitFault::Cut);
            };
            value = value * 2 + u32::from(bit);
        }
        *self = ahead;
        Ok(value)
    }

    /// Goes past whole windows of zeros, and tells how many zeros these were.
    fn pass_zeros(&mut self) -> u64
        ensures goes { held_behind result (unary_at (left self.new))
            ≡ held (unary_at (left self.old)) }
        ensures whole { source self.new ≡ source self.old }
    {
        let mut zeros = 0u64;
        while let Some(0) = self.window() {
            let count = 64 - self.bit;
            self.skip(count);
            zeros = zeros.saturating_add(u64::from(count));
        }
        zeros
    }

    /// A unary count, of which so many zeros were read.
    fn unary_behind(&mut self, zeros: u64) -> Result<u64, BitFault>
        ensures gives { Gives (λ value. (value, left self.new)) result
            (held_behind zeros (unary_at (left self.old))) }
        ensures whole { source self.new ≡ source self.old }
    {
        match self.window() {
            Some(window) if window != 0 => {
                let more = window.leading_zeros();
                self.skip(more + 1);
                Ok(zeros.saturating_add(u64::from(more)))
            }
            _ => self.unary_bit_by_bit(zeros),
        }
    }

    #[cold]
    fn unary_bit_by_bit(&mut self, zeros: u64) -> Result<u64, BitFault>
        ensures gives { Gives (λ value. (value, left self.new)) result
            (held_behind zeros (unary_at (left self.old))) }
        ensures whole { source self.new ≡ source self.old }
    {
        let mut count = zeros;
        while let Some(bit) = self.next_bit() {
            if bit {
                return Ok(count);
            }
            count = count.saturating_add(1);
        }
        Err(BitFault::Cut)
    }

    /// A Rice value whose unary quotient and low bits do not lie in one window.
    #[cold]
    #[tactic(auto, unfolding(crate::specs::Windows::rice_by_parts))]
    fn long_rice(&mut self, low: u32) -> Result<u64, BitFault>
        requires { low ≤ 30 }
        ensures gives { Gives (λ value. (value, left self.new)) result
            (rice_by_parts low (left self.old)) }
        ensures whole { source self.new ≡ source self.old }
        ensures kept { OnErr result (left self.new ≡ left self.old) }
    {
        let mut ahead = *self;
        let quotient = ahead.unary()?;
        let rest = ahead.take(low)?;
        *self = ahead;
        Ok(joined(quotient, low, rest))
    }

    #[tactic(auto, unfolding(file_model::specs::Fields::coded_at))]
    fn coded_value(&mut self) -> Result<u64, BitFault>
        ensures gives { Gives (λ value. (value, left self.new)) result (coded_at (left self.old)) }
        ensures whole { source self.new ≡ source self.old }
    {
        let first = self.take(8)?;
        let (count, high) = first_byte(first)?;
        self.coded_rest(count, high)
    }

    /// The rest of a coded number, of which the highest bits were read, and so many bytes follow.
    #[tactic(auto, unfolding(file_model::specs::Fields::coded_more))]
    fn coded_rest(&mut self, count: u32, high: u64) -> Result<u64, BitFault>
        requires few { count ≤ 6 }
        requires small { high < 128 }
        ensures gives { Gives (λ value. (value, left self.new)) result
            (coded_more count high (left self.old)) }
        ensures whole { source self.new ≡ source self.old }
    {
        let mut value = high;
        for _ in 0..count {
            let next = match self.take(8) {
                Ok(next) => next,
                Err(fault) => return Err(fault),
            };
            if next / 64 != 0b10 {
                return Err(BitFault::BadNumber);
            }
            value = value * 64 + u64::from(next % 64);
        }
        Ok(value)
    }
}

/// How many bytes follow the first one of a coded number, and the number's highest bits in it.
#[tactic(auto, unfolding(file_model::specs::Fields::lead))]
fn first_byte(first: u32) -> Result<(u32, u64), BitFault>
    requires { first < 256 }
    ensures gives { Gives (λ head. (head.0, head.1)) result (lead first) }
    ensures few { IfOk result (λ head. head.0 ≤ 6) }
    ensures small { IfOk result (λ head. head.1 < 128) }
{
    let first = u64::from(first);
    match first {
        0x00..=0x7F => Ok((0, first)),
        0xC0..=0xDF => Ok((1, first - 0xC0)),
        0xE0..=0xEF => Ok((2, first - 0xE0)),
        0xF0..=0xF7 => Ok((3, first - 0xF0)),
        0xF8..=0xFB => Ok((4, first - 0xF8)),
        0xFC..=0xFD => Ok((5, first - 0xFC)),
        0xFE => Ok((6, 0)),
        _ => Err(BitFault::BadNumber),
    }
}
