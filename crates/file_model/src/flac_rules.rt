//! The rules of a FLAC file.
ghost use Rattle.std.specs.Prelude.{◌≡◌};
ghost use Rattle.file_model.specs.FlacRules.{flac_rule_of, rule_of_fault};

use crate::bits::BitFault;
use lib_base::Rule;

/// The rules that a FLAC file can break, in the order of their numbers, the first of which is 1
/// (RFC 9639 sections 8 and 9).
///
/// A file that breaks several is refused by the one that is tried first: as its bits come.
#[derive(Clone, Copy, Debug, PartialEq, Eq)]
pub enum FlacRule {
    /// Others than `fLaC` at the start.
    NoFlac = 1,
    /// A metadata block passes the end of the file.
    CutBlock,
    /// A metadata block of the type 127.
    InvalidBlock,
    /// Another first block than STREAMINFO of 34 bytes.
    NoStreaminfo,
    /// A second STREAMINFO or comment block.
    RepeatedBlock,
    /// Another rate than 48,000 Hz.
    OtherRate,
    /// More than six channels.
    OtherChannels,
    /// Fewer than 4 or more than 24 bits a sample.
    OtherDepth,
    /// Other bits than the sync code where a frame begins.
    LostSync,
    /// The reserved block size.
    ReservedBlockSize,
    /// The forbidden sample rate.
    ForbiddenRate,
    /// A reserved channel assignment.
    ReservedChannels,
    /// The reserved bit depth.
    ReservedDepth,
    /// A 1 where the header has a reserved bit.
    ReservedBit,
    /// A coded number out of its form.
    OtherCodedNumber,
    /// Another rate than STREAMINFO's.
    FrameRate,
    /// Another number of channels than STREAMINFO's.
    FrameChannels,
    /// Another depth than STREAMINFO's.
    FrameDepth,
    /// Another CRC-8 than that of the header.
    HeaderCheck,
    /// A 1 where a subframe begins.
    SubframeBit,
    /// A reserved subframe type.
    ReservedSubframe,
    /// As many wasted bits as a sample has, or more.
    WastedBits,
    /// A predictor of a higher order than the block has samples.
    PredictorOrder,
    /// The forbidden precision of coefficients.
    ForbiddenPrecision,
    /// A negative shift.
    NegativeShift,
    /// A reserved coding of the residual, or partitions that the block does not have.
    OtherPartitions,
    /// A residual past 31 bits, or a sample outside its depth.
    OutOfRange,
    /// A 1 where the frame is padded, or another CRC-16 than that of the frame.
    FrameCheck,
    /// The file ends inside the frame.
    CutFrame,
    /// Another number of samples than STREAMINFO's total.
    OtherTotal,
    /// Another MD5 than that of the samples.
    OtherMd5,
    /// More samples over all channels than are read.
    TooManySamples,
}

impl FlacRule {
    /// The rule by family and number, as it is printed.
    pub fn rule(self) -> Rule
        ensures { result ≡ flac_rule_of self }
    {
        Rule::F(self as u8)
    }
}

/// Of a field that breaks no rule of its own, and is cut or no coded number.
impl From<BitFault> for FlacRule {
    ghost from_gives = { λ fault rule. rule ≡ rule_of_fault fault };

    fn from(fault: BitFault) -> FlacRule {
        match fault {
            BitFault::Cut => FlacRule::CutFrame,
            BitFault::BadNumber => FlacRule::OtherCodedNumber,
        }
    }
}
