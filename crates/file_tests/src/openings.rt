//! What stands before the first frame, read and refused.
use file_model::FlacRule;
use flac_stream::read;
use lib_base::{Broken, Refused};
use std::alloc::Global;
use std::test::Fail;

/// STREAMINFO of a sound of one channel of 16 bits, and one frame of sixteen samples of 1.
const FILE: [u8; 54] = [
    0x66, 0x4C, 0x61, 0x43, 0x80, 0x00, 0x00, 0x22, 0x00, 0x10, 0x00, 0x10, 0x00, 0x00, 0x00, 0x00,
    0x00, 0x00, 0x0B, 0xB8, 0x00, 0xF0, 0x00, 0x00, 0x00, 0x10, 0x00, 0x00, 0x00, 0x00, 0x00, 0x00,
    0x00, 0x00, 0x00, 0x00, 0x00, 0x00, 0x00, 0x00, 0x00, 0x00, 0xFF, 0xF8, 0x6A, 0x08, 0x00, 0x0F,
    0x0A, 0x00, 0x00, 0x01, 0xBE, 0x85,
];

/// The same STREAMINFO, which is not the last block, and two empty blocks whose types are filled in.
const THREE: [u8; 50] = [
    0x66, 0x4C, 0x61, 0x43, 0x00, 0x00, 0x00, 0x22, 0x00, 0x10, 0x00, 0x10, 0x00, 0x00, 0x00, 0x00,
    0x00, 0x00, 0x0B, 0xB8, 0x00, 0xF0, 0x00, 0x00, 0x00, 0x10, 0x00, 0x00, 0x00, 0x00, 0x00, 0x00,
    0x00, 0x00, 0x00, 0x00, 0x00, 0x00, 0x00, 0x00, 0x00, 0x00, 0x00, 0x00, 0x00, 0x00, 0x00, 0x00,
    0x00, 0x00,
];

/// The same, with comments of one byte and then padding, and the frame.
const COMMENTED: [u8; 63] = [
    0x66, 0x4C, 0x61, 0x43, 0x00, 0x00, 0x00, 0x22, 0x00, 0x10, 0x00, 0x10, 0x00, 0x00, 0x00, 0x00,
    0x00, 0x00, 0x0B, 0xB8, 0x00, 0xF0, 0x00, 0x00, 0x00, 0x10, 0x00, 0x00, 0x00, 0x00, 0x00, 0x00,
    0x00, 0x00, 0x00, 0x00, 0x00, 0x00, 0x00, 0x00, 0x00, 0x00, 0x04, 0x00, 0x00, 0x01, 0x09, 0x81,
    0x00, 0x00, 0x00, 0xFF, 0xF8, 0x6A, 0x08, 0x00, 0x0F, 0x0A, 0x00, 0x00, 0x01, 0xBE, 0x85,
];

/// What a file is refused with, if it is.
fn refusal(alloc: Global, bytes: &[u8]) -> Option<Refused> {
    match read(alloc, bytes) {
        Ok(_) => None,
        Err(refused) => Some(refused),
    }
}

/// The refusal by a rule at a place.
fn by_rule(rule: FlacRule, place: u64) -> Option<Refused> {
    Some(Refused::Broken(Broken {
        rule: rule.rule(),
        place,
    }))
}

/// Each row: the place of a byte, the other byte there, the rule that it breaks, and where.
#[test]
fn each_edit_breaks_its_rule(rt: HostRuntime) {
    let edits = [
        (0, 0x67, FlacRule::NoFlac, 0),
        (4, 0xFF, FlacRule::InvalidBlock, 4),
        (4, 0x81, FlacRule::NoStreaminfo, 4),
        (7, 0x21, FlacRule::NoStreaminfo, 4),
        (4, 0x00, FlacRule::CutBlock, 42),
        (18, 0x0A, FlacRule::OtherRate, 18),
        (20, 0x0C, FlacRule::OtherChannels, 20),
        (21, 0x20, FlacRule::OtherDepth, 20),
    ];
    for (place, byte, rule, at) in edits {
        assert!(rt; place < 54);
        let mut bytes = FILE;
        bytes[place] = byte;
        assert_eq!(rt;
            refusal(rt.alloc(), bytes.as_slice()),
            by_rule(rule, at),
            "byte {place} as {byte}"
        );
    }
}

/// A file that is cut before its blocks end.
#[test]
fn cut_files(rt: HostRuntime) {
    for length in 0..42 {
        let rule = if length < 4 {
            by_rule(FlacRule::NoFlac, 0)
        } else {
            by_rule(FlacRule::CutBlock, 4)
        };
        assert_eq!(rt;
            refusal(rt.alloc(), &FILE[..length]),
            rule,
            "{length} bytes"
        );
    }
}

/// Each row: the types of the two blocks behind STREAMINFO, and the refusal. In the last two rows
/// the blocks are right: no frame stands behind them, and none begins behind the first of them.
#[test]
fn further_blocks(rt: HostRuntime) {
    let rows = [
        (0x00, 0x84, by_rule(FlacRule::RepeatedBlock, 42)),
        (0x04, 0x84, by_rule(FlacRule::RepeatedBlock, 46)),
        (0x04, 0xFF, by_rule(FlacRule::InvalidBlock, 46)),
        (0x01, 0x01, by_rule(FlacRule::CutBlock, 50)),
        (0x01, 0xFE, by_rule(FlacRule::OtherTotal, 21)),
        (0x81, 0x80, by_rule(FlacRule::LostSync, 46)),
    ];
    for (first, second, answer) in rows {
        let mut bytes = THREE;
        bytes[42] = first;
        bytes[46] = second;
        assert_eq!(rt;
            refusal(rt.alloc(), bytes.as_slice()),
            answer,
            "types {first} and {second}"
        );
    }
}

/// What is kept of a file with comments before padding.
#[test]
fn blocks_that_are_kept(rt: HostRuntime) -> Result<(), Fail> {
    let file = read(rt.alloc(), COMMENTED.as_slice())?;
    assert!(rt; file.blocks().len() == 3);
    assert_eq!(rt; file.sound_start(), 51);
    assert_eq!(rt; file.comments(), Some(1));
    let info = file.info();
    assert_eq!(rt; info.rate, 48_000);
    assert_eq!(rt; info.channels, 1);
    assert_eq!(rt; info.depth, 16);
    assert_eq!(rt; info.total, 16);
    let comments = file.blocks()[1];
    assert_eq!(rt; comments.kind, 4);
    assert_eq!(rt; comments.content.start, 46);
    assert_eq!(rt; comments.content.end, 47);
    Ok(())
}
