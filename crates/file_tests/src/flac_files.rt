//! Whole files, read and refused.
use file_model::FlacRule;
use flac_stream::read;
use lib_base::{Broken, Refused};
use std::alloc::Global;
use std::test::Fail;

/// STREAMINFO of a sound of one channel of 16 bits, and one frame of sixteen samples of 1.
const FILE: [u8; 54] = [
    0x66, 0x4C, 0x61, 0x43, 0x80, 0x00, 0x00, 0x22, 0x00, 0x10, 0x00, 0x10, 0x00, 0x00, 0x00, 0x00,
    0x00, 0x00, 0x0B, 0xB8, 0x00, 0xF0, 0x00, 0x00, 0x00, 0x10, 0x00, 0x00, 0x00, 0x00, 0x00, 0x00,
    0x00, 0x00, 0x00, 0x00, 0x00, 0x00, 0x00, 0x00, 0x00, 0x00, 0xFF, 0xF8, 0x6A, 0x08, 0x00, 0x0F,
    0x0A, 0x00, 0x00, 0x01, 0xBE, 0x85,
];

/// The MD5 of its samples: of `01 00`, sixteen times.
const DIGEST: [u8; 16] = [
    0x79, 0x14, 0x49, 0xD8, 0x88, 0x4B, 0x46, 0x91, 0x2C, 0x25, 0xF3, 0xDF, 0xC8, 0x9E, 0xC4, 0x48,
];

/// A frame of 32,768 samples of 1.
const LONG_FRAME: [u8; 11] = [
    0xFF, 0xF8, 0xFA, 0x08, 0x00, 0xC9, 0x00, 0x00, 0x01, 0xA1, 0x93,
];

/// The samples of each channel that a file has, or its refusal.
fn samples_in(alloc: Global, bytes: &[u8]) -> Result<u64, Refused> {
    let file = read(alloc, bytes)?;
    Ok(file.frames())
}

/// The refusal by a rule at a place.
fn by_rule(rule: FlacRule, place: u64) -> Result<u64, Refused> {
    Err(Refused::Broken(Broken {
        rule: rule.rule(),
        place,
    }))
}

/// Each row: the place of a byte, the other byte there, and the answer.
#[test]
fn edits_of_frames_and_of_what_is_said_of_them(rt: HostRuntime) {
    let edits = [
        (0, 0x66, Ok(16)),
        (0, 0x67, by_rule(FlacRule::NoFlac, 0)),
        (21, 0x20, by_rule(FlacRule::OtherDepth, 20)),
        (25, 0x00, Ok(16)),
        (25, 0x11, by_rule(FlacRule::OtherTotal, 21)),
        (41, 0x01, by_rule(FlacRule::OtherMd5, 26)),
        (48, 0x0B, by_rule(FlacRule::HeaderCheck, 42)),
        (53, 0x84, by_rule(FlacRule::FrameCheck, 42)),
    ];
    for (place, byte, answer) in edits {
        assert!(rt; place < 54);
        let mut bytes = FILE;
        bytes[place] = byte;
        assert_eq!(rt;
            samples_in(rt.alloc(), bytes.as_slice()),
            answer,
            "byte {place} as {byte}"
        );
    }
}

/// A file that is cut behind its blocks.
#[test]
fn files_cut_behind_their_blocks(rt: HostRuntime) {
    for length in 42..54 {
        let answer = if length == 42 {
            by_rule(FlacRule::OtherTotal, 21)
        } else {
            by_rule(FlacRule::CutFrame, 42)
        };
        assert_eq!(rt;
            samples_in(rt.alloc(), &FILE[..length]),
            answer,
            "{length} bytes"
        );
    }
}

/// The MD5 that STREAMINFO says is that of the samples, or another.
#[test]
fn digests(rt: HostRuntime) {
    let mut bytes = FILE;
    for i in 0..16 {
        bytes[26 + i] = DIGEST[i];
    }
    assert_eq!(rt; samples_in(rt.alloc(), bytes.as_slice()), Ok(16));
    bytes[41] = 0x49;
    assert_eq!(rt;
        samples_in(rt.alloc(), bytes.as_slice()),
        by_rule(FlacRule::OtherMd5, 26)
    );
}

/// As many samples as are read, and a frame more.
#[test]
fn the_most_samples(rt: HostRuntime) -> Result<(), Fail> {
    let mut bytes = Vec::from_slice(rt.alloc(), &FILE[..42])?;
    bytes[25] = 0x00;
    for _ in 0..4096 {
        bytes.extend_from_slice(LONG_FRAME.as_slice())?;
    }
    assert_eq!(rt; samples_in(rt.alloc(), bytes.as_slice()), Ok(134_217_728));
    bytes.extend_from_slice(LONG_FRAME.as_slice())?;
    assert_eq!(rt;
        samples_in(rt.alloc(), bytes.as_slice()),
        by_rule(FlacRule::TooManySamples, 45_098)
    );
    Ok(())
}
