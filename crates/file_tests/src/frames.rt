//! Frames, read and refused.
ghost use Rattle.std.specs.Prelude.{◌≡◌, ◌≤◌, ◌*◌, length};
ghost use Rattle.flac_frames.specs.declared.frame.TheConstants.{GREATEST_BLOCK};

use file_model::FlacRule;
use flac_frames::{FrameEnd, Info, channel, read_frame};
use lib_base::{Broken, Memory, Scratch};
use std::alloc::Global;

/// Room for two channels.
const ROOM: usize = 131_072;

/// A frame that was read: its end, and the samples of its first two channels.
#[derive(Debug, Drop, PartialEq)]
struct FrameRead {
    end: FrameEnd,
    first: Vec<i32>,
    second: Vec<i32>,
}

/// What a file of so many channels and bits says of its sound.
fn file_of(channels: u32, depth: u32) -> Info
    ensures channels { result.channels ≡ channels }
    ensures depth { result.depth ≡ depth }
{
    Info {
        rate: 48_000,
        channels,
        depth,
        total: 0,
        md5: [0; 16],
    }
}

/// What is read of the frame at a place.
fn shown(
    alloc: Global,
    bytes: &[u8],
    at: usize,
    info: &Info,
    room: usize,
) -> Result<Result<FrameRead, Broken>, Memory>
    requires place { at ≤ length bytes.now }
    requires some { 1 ≤ info.now.channels }
    requires few { info.now.channels ≤ 2 }
    requires low { 4 ≤ info.now.depth }
    requires high { info.now.depth ≤ 24 }
    requires room { 2 * GREATEST_BLOCK ≤ room }
{
    let mut scratch = Scratch::new(alloc, room)?;
    match read_frame(bytes, at, info, &mut scratch) {
        Err(broken) => Ok(Err(broken)),
        Ok(end) => {
            let first = Vec::from_slice(alloc, channel(&scratch, end.block, 0))?;
            let second = match info.channels {
                2 => Vec::from_slice(alloc, channel(&scratch, end.block, 1))?,
                _ => Vec::new(alloc),
            };
            Ok(Ok(FrameRead { end, first, second }))
        }
    }
}

/// The frame of so many bytes that was read.
fn whole(
    alloc: Global,
    next: usize,
    first: &[i32],
    second: &[i32],
) -> Result<Result<FrameRead, Broken>, Memory> {
    let first = Vec::from_slice(alloc, first)?;
    let second = Vec::from_slice(alloc, second)?;
    let block = u32::try_from(first.len()).unwrap_or(0);
    Ok(Ok(FrameRead {
        end: FrameEnd { next, block },
        first,
        second,
    }))
}

/// A frame: what it shows, the bits of a sample, its bytes, and the samples of its channels.
struct Row {
    name: &'static str,
    depth: u32,
    bytes: &'static [u8],
    first: &'static [i32],
    second: &'static [i32],
}

/// Frames that are read. Those of one channel have no second one.
const FRAMES: [Row; 19] = [
    Row {
        name: "left and right",
        depth: 4,
        bytes: b"\xFF\xF8\x6A\x10\x00\x02\xDA\x02\x38\x70\x28\x77\xC8\x06",
        first: &[3, -8, 7],
        second: &[-8, 7, 7],
    },
    Row {
        name: "left and side",
        depth: 4,
        bytes: b"\xFF\xF8\x6A\x80\x00\x02\x73\x02\x38\x70\x25\xC4\x00\x86\x39",
        first: &[3, -8, 7],
        second: &[-8, 7, 7],
    },
    Row {
        name: "side and right",
        depth: 4,
        bytes: b"\xFF\xF8\x6A\x90\x00\x02\xD1\x02\x5C\x40\x05\x0E\xE0\x43\x6B",
        first: &[3, -8, 7],
        second: &[-8, 7, 7],
    },
    Row {
        name: "mid and side",
        depth: 4,
        bytes: b"\xFF\xF8\x6A\xA0\x00\x02\x30\x02\xDF\x70\x25\xC4\x00\xEF\xC9",
        first: &[3, -8, 7],
        second: &[-8, 7, 7],
    },
    Row {
        name: "left and right",
        depth: 16,
        bytes: b"\xFF\xF8\x6A\x18\x00\x02\x8B\x02\x00\x03\x80\x00\x7F\xFF\x02\x80\x00\x7F\xFF\x7F\
            \xFF\x4E\x4A",
        first: &[3, -32_768, 32_767],
        second: &[-32_768, 32_767, 32_767],
    },
    Row {
        name: "left and side",
        depth: 16,
        bytes: b"\xFF\xF8\x6A\x88\x00\x02\x22\x02\x00\x03\x80\x00\x7F\xFF\x02\x40\x01\xC0\x00\x40\
            \x00\x00\x4A\xE2",
        first: &[3, -32_768, 32_767],
        second: &[-32_768, 32_767, 32_767],
    },
    Row {
        name: "side and right",
        depth: 16,
        bytes: b"\xFF\xF8\x6A\x98\x00\x02\x80\x02\x40\x01\xC0\x00\x40\x00\x00\x50\x00\x0F\xFF\xEF\
            \xFF\xE0\x0E\x9E",
        first: &[3, -32_768, 32_767],
        second: &[-32_768, 32_767, 32_767],
    },
    Row {
        name: "mid and side",
        depth: 16,
        bytes: b"\xFF\xF8\x6A\xA8\x00\x02\x61\x02\xC0\x01\xFF\xFF\x7F\xFF\x02\x40\x01\xC0\x00\x40\
            \x00\x00\x68\x22",
        first: &[3, -32_768, 32_767],
        second: &[-32_768, 32_767, 32_767],
    },
    Row {
        name: "left and right",
        depth: 24,
        bytes: b"\xFF\xF8\x6A\x1C\x00\x02\x20\x02\x00\x00\x03\x80\x00\x00\x7F\xFF\xFF\x02\x80\x00\
            \x00\x7F\xFF\xFF\x7F\xFF\xFF\x70\xC5",
        first: &[3, -8_388_608, 8_388_607],
        second: &[-8_388_608, 8_388_607, 8_388_607],
    },
    Row {
        name: "left and side",
        depth: 24,
        bytes: b"\xFF\xF8\x6A\x8C\x00\x02\x89\x02\x00\x00\x03\x80\x00\x00\x7F\xFF\xFF\x02\x40\x00\
            \x01\xC0\x00\x00\x40\x00\x00\x00\xA2\x60",
        first: &[3, -8_388_608, 8_388_607],
        second: &[-8_388_608, 8_388_607, 8_388_607],
    },
    Row {
        name: "side and right",
        depth: 24,
        bytes: b"\xFF\xF8\x6A\x9C\x00\x02\x2B\x02\x40\x00\x01\xC0\x00\x00\x40\x00\x00\x00\x50\x00\
            \x00\x0F\xFF\xFF\xEF\xFF\xFF\xE0\x08\xE9",
        first: &[3, -8_388_608, 8_388_607],
        second: &[-8_388_608, 8_388_607, 8_388_607],
    },
    Row {
        name: "mid and side",
        depth: 24,
        bytes: b"\xFF\xF8\x6A\xAC\x00\x02\xCA\x02\xC0\x00\x01\xFF\xFF\xFF\x7F\xFF\xFF\x02\x40\x00\
            \x01\xC0\x00\x00\x40\x00\x00\x00\x0D\x87",
        first: &[3, -8_388_608, 8_388_607],
        second: &[-8_388_608, 8_388_607, 8_388_607],
    },
    Row {
        name: "samples as they are, with 12 wasted bits",
        depth: 16,
        bytes: b"\xFF\xF8\x6A\x08\x00\x03\x2E\x03\x00\x14\x87\x10\x78\x16",
        first: &[16_384, -32_768, 28_672, 4096],
        second: &[],
    },
    Row {
        name: "a fixed predictor, and three wasted bits",
        depth: 16,
        bytes: b"\xFF\xF8\x6A\x08\x00\x03\x2E\x13\x20\x03\x00\x81\x40\xCE\xE2\x72",
        first: &[24, -64, 40, 8],
        second: &[],
    },
    Row {
        name: "a Rice parameter of five bits",
        depth: 24,
        bytes: b"\xFF\xF8\x6A\x0C\x00\x03\x85\x10\x42\x80\x00\x3F\xFF\xFE\x00\x03\xFF\xFF\xC0\x00\
            \x3F\xFF\xFF\x00\x00\xA0\x2D\xB0",
        first: &[-8_388_608, 8_388_607, -8_388_608, 5],
        second: &[],
    },
    Row {
        name: "an escaped partition behind one that is not",
        depth: 16,
        bytes: b"\xFF\xF8\x6A\x08\x00\x03\x2E\x10\x04\x53\xF4\x3F\xC0\x00\x83\x78",
        first: &[1, -2, 127, -128],
        second: &[],
    },
    Row {
        name: "a first partition of none",
        depth: 16,
        bytes: b"\xFF\xF8\x6A\x08\x00\x03\x2E\x14\x00\x07\x00\x09\x04\x45\xE0\x5F\x7E",
        first: &[7, 9, 9, 8],
        second: &[],
    },
    Row {
        name: "the fixed predictor of order 3",
        depth: 16,
        bytes: b"\xFF\xF8\x6A\x08\x00\x03\x2E\x16\x00\x07\x00\x09\x00\x0E\x00\x44\x67\x0A",
        first: &[7, 9, 14, 25],
        second: &[],
    },
    Row {
        name: "32 coefficients of 15 bits, with a shift of 9",
        depth: 16,
        bytes: b"\xFF\xF8\x6A\x08\x00\x23\xCE\x7E\xFF\xD0\xFF\xF5\x00\x03\xFF\xFA\xFF\xDA\x00\x04\
        \x00\x17\x00\x13\xFF\xF8\x00\x27\xFF\xDE\xFF\xDF\x00\x2A\xFF\xFD\x00\x1A\x00\x20\
        \x00\x0F\xFF\xE7\x00\x09\x00\x14\x00\x08\xFF\xE5\x00\x0C\x00\x1C\x00\x15\xFF\xF7\
        \x00\x23\xFF\xD7\xFF\xD5\x00\x1D\xFF\xED\x00\x07\xE4\xFE\xD4\x01\x90\x00\x03\xF9\
        \xC0\x12\xC0\x0C\x9F\xE7\x3F\x6A\x00\xC8\x00\x01\xFC\xE0\x09\x60\x06\x4F\xF3\x9F\
        \xB5\x00\x64\x00\x00\xFE\x70\x04\xB0\x03\x27\xF9\xCF\xDA\x80\x32\x00\x00\x7F\x38\
        \x02\x58\x01\x93\xFC\xE7\xED\x40\x19\x00\x00\x3F\x9C\x00\xC7\x5E\xC3\x00\xAE\x7A\
        \x0C",
        first: &[
            -48, -11, 3, -6, -38, 4, 23, 19, -8, 39, -34, -33, 42, -3, 26, 32, 15, -25, 9, 20, 8,
            -27, 12, 28, 21, -9, 35, -41, -43, 29, -19, 7, 10, -10, 44, -22,
        ],
        second: &[],
    },
];

/// What so many channels say of their file: one, or two where the second has samples.
fn info_of(row: &Row) -> Info
    ensures channels { (1 ≤ result.channels) × (result.channels ≤ 2) }
    ensures depth { result.depth ≡ row.now.depth }
{
    file_of(if row.second.is_empty() { 1 } else { 2 }, row.depth)
}

#[test]
fn frames_that_are_read(rt: HostRuntime) -> Result<(), Memory> {
    let alloc = rt.alloc();
    for row in &FRAMES {
        let depth = row.depth;
        assert!(rt; 4 <= depth && depth <= 24);
        let read = shown(alloc, row.bytes, 0, &info_of(row), ROOM)?;
        let wanted = whole(alloc, row.bytes.len(), row.first, row.second)?;
        assert_eq!(rt; read, wanted, "{} of {depth} bits", row.name);
    }
    Ok(())
}

/// A file of one frame, of sixteen samples of 1. The frame begins at 42.
const FILE: [u8; 54] = [
    0x66, 0x4C, 0x61, 0x43, 0x80, 0x00, 0x00, 0x22, 0x00, 0x10, 0x00, 0x10, 0x00, 0x00, 0x00, 0x00,
    0x00, 0x00, 0x0B, 0xB8, 0x00, 0xF0, 0x00, 0x00, 0x00, 0x10, 0x00, 0x00, 0x00, 0x00, 0x00, 0x00,
    0x00, 0x00, 0x00, 0x00, 0x00, 0x00, 0x00, 0x00, 0x00, 0x00, 0xFF, 0xF8, 0x6A, 0x08, 0x00, 0x0F,
    0x0A, 0x00, 0x00, 0x01, 0xBE, 0x85,
];

/// The refusal of the frame at 42.
fn by_rule(rule: FlacRule) -> Result<FrameRead, Broken> {
    Err(Broken {
        rule: rule.rule(),
        place: 42,
    })
}

/// Two bytes put in at their places, and the rule that the frame then breaks.
const EDITS: [(usize, u8, usize, u8, FlacRule); 11] = [
    (43, 0xF0, 43, 0xF0, FlacRule::LostSync),
    (45, 0x02, 45, 0x02, FlacRule::FrameDepth),
    (48, 0x0B, 48, 0x0B, FlacRule::HeaderCheck),
    (49, 0x80, 49, 0x80, FlacRule::SubframeBit),
    (49, 0x04, 49, 0x04, FlacRule::ReservedSubframe),
    (49, 0x01, 49, 0x01, FlacRule::WastedBits),
    (49, 0x60, 49, 0x60, FlacRule::PredictorOrder),
    (49, 0x40, 52, 0xF0, FlacRule::ForbiddenPrecision),
    (49, 0x40, 52, 0x08, FlacRule::NegativeShift),
    (49, 0x10, 50, 0x80, FlacRule::OtherPartitions),
    (53, 0x84, 53, 0x84, FlacRule::FrameCheck),
];

/// Edits of the file, a residual of 17 bits that is no sample of 16 among sixteen, and a frame that
/// ends at each of its bytes and before the first.
#[test]
fn frames_that_are_refused(rt: HostRuntime) -> Result<(), Memory> {
    let alloc = rt.alloc();
    let info = file_of(1, 16);
    let read = shown(alloc, &FILE, 42, &info, ROOM)?;
    assert_eq!(rt; read, whole(alloc, 54, &[1; 16], &[])?);
    for (first, one, second, other, rule) in EDITS {
        assert!(rt; first < 54 && second < 54);
        let mut bytes = FILE;
        bytes[first] = one;
        bytes[second] = other;
        let read = shown(alloc, bytes.as_slice(), 42, &info, ROOM)?;
        assert_eq!(rt; read, by_rule(rule), "byte {first} as {one}");
    }
    let mut bytes = Vec::from_slice(alloc, &FILE[..49])?;
    bytes.extend_from_slice(&[0x10, 0x03, 0xE3])?;
    bytes.extend_from_slice(&[0; 34])?;
    let read = shown(alloc, bytes.as_slice(), 42, &info, ROOM)?;
    assert_eq!(rt; read, by_rule(FlacRule::OutOfRange));
    for length in 42..FILE.len() {
        let read = shown(alloc, &FILE[..length], 42, &info, ROOM)?;
        assert_eq!(rt; read, by_rule(FlacRule::CutFrame), "{length} bytes");
    }
    Ok(())
}

/// A block of as many samples as there can be, and one of 256 partitions of no bits each.
#[test]
fn long_blocks(rt: HostRuntime) -> Result<(), Memory> {
    let alloc = rt.alloc();
    let bytes = b"\xFF\xF8\x7A\x08\x00\xFF\xFF\xE3\x00\xFF\xFB\x71\x5B".as_slice();
    match shown(alloc, bytes, 0, &file_of(1, 16), ROOM)? {
        Ok(read) => {
            assert_eq!(rt;
                read.end,
                FrameEnd {
                    next: 13,
                    block: 65_536
                }
            );
            assert!(rt; read.first.iter().all(|sample| *sample == -5));
        }
        Err(broken) => assert!(rt; false, "{} at {}", broken.rule, broken.place),
    }
    let mut bytes = Vec::from_slice(alloc, &[0xFF, 0xF8, 0xCA, 0x08, 0x00, 0x28, 0x10, 0x23])?;
    for _ in 0..31 {
        bytes.extend_from_slice(&[0xC1, 0xE0, 0xF0, 0x78, 0x3C, 0x1E, 0x0F, 0x07, 0x83])?;
    }
    bytes.extend_from_slice(&[
        0xC1, 0xE0, 0xF0, 0x78, 0x3C, 0x1E, 0x0F, 0x07, 0x80, 0x0B, 0x51,
    ])?;
    match shown(alloc, bytes.as_slice(), 0, &file_of(1, 16), ROOM)? {
        Ok(read) => {
            assert_eq!(rt;
                read.end,
                FrameEnd {
                    next: 298,
                    block: 4_096
                }
            );
            assert!(rt; read.first.iter().all(|sample| *sample == 0));
        }
        Err(broken) => assert!(rt; false, "{} at {}", broken.rule, broken.place),
    }
    Ok(())
}
