//! Files of both kinds, accepted and refused.
use file_model::{CommentRule, FlacRule, KindRule, WaveRule};
use lib_base::{Broken, Refused, Rule, Scratch, Sound};
use std::alloc::Global;
use std::test::Fail;
use tag_writer::{Accepted, AnySound, accept};

/// STREAMINFO of a sound of one channel of 16 bits, and one frame of sixteen samples of 1.
const FLAC: [u8; 54] = [
    0x66, 0x4C, 0x61, 0x43, 0x80, 0x00, 0x00, 0x22, 0x00, 0x10, 0x00, 0x10, 0x00, 0x00, 0x00, 0x00,
    0x00, 0x00, 0x0B, 0xB8, 0x00, 0xF0, 0x00, 0x00, 0x00, 0x10, 0x00, 0x00, 0x00, 0x00, 0x00, 0x00,
    0x00, 0x00, 0x00, 0x00, 0x00, 0x00, 0x00, 0x00, 0x00, 0x00, 0xFF, 0xF8, 0x6A, 0x08, 0x00, 0x0F,
    0x0A, 0x00, 0x00, 0x01, 0xBE, 0x85,
];

/// A wave of one channel of 16 bits, with two samples of 1.
const WAVE: [u8; 48] = [
    0x52, 0x49, 0x46, 0x46, 0x28, 0x00, 0x00, 0x00, 0x57, 0x41, 0x56, 0x45, 0x66, 0x6D, 0x74, 0x20,
    0x10, 0x00, 0x00, 0x00, 0x01, 0x00, 0x01, 0x00, 0x80, 0xBB, 0x00, 0x00, 0x00, 0x77, 0x01, 0x00,
    0x02, 0x00, 0x10, 0x00, 0x64, 0x61, 0x74, 0x61, 0x04, 0x00, 0x00, 0x00, 0x01, 0x00, 0x01, 0x00,
];

/// The samples of each channel of a wave or of a FLAC file, or its refusal.
#[derive(Clone, Copy, Debug, PartialEq, Eq)]
enum Answer {
    Wave(u64),
    Flac(u64),
    Refused(Refused),
}

/// What accepting bytes answers.
fn answer_to(alloc: Global, bytes: &[u8]) -> Answer {
    match accept(alloc, bytes) {
        Ok(Accepted::Wave(wave)) => Answer::Wave(wave.frames()),
        Ok(Accepted::Flac(file)) => Answer::Flac(file.frames()),
        Err(refused) => Answer::Refused(refused),
    }
}

/// The refusal by a rule at a place.
fn by_rule(rule: Rule, place: u64) -> Answer {
    Answer::Refused(Refused::Broken(Broken { rule, place }))
}

/// Each row: the first bytes of a file, its length, the place of a byte, the other byte there, and
/// the answer.
#[test]
fn edits_of_files(rt: HostRuntime) -> Result<(), Fail> {
    let rows = [
        (FLAC.as_slice(), 0, 0x66, Answer::Flac(16)),
        (
            FLAC.as_slice(),
            0,
            0x67,
            by_rule(KindRule::OtherKind.rule(), 0),
        ),
        (
            FLAC.as_slice(),
            21,
            0x20,
            by_rule(FlacRule::OtherDepth.rule(), 20),
        ),
        (
            FLAC.as_slice(),
            53,
            0x84,
            by_rule(FlacRule::FrameCheck.rule(), 42),
        ),
        (WAVE.as_slice(), 0, 0x52, Answer::Wave(2)),
        (
            WAVE.as_slice(),
            3,
            0x58,
            by_rule(KindRule::OtherKind.rule(), 0),
        ),
        (
            WAVE.as_slice(),
            26,
            0x01,
            by_rule(WaveRule::OtherRate.rule(), 24),
        ),
        (
            b"PK".as_slice(),
            0,
            0x50,
            by_rule(KindRule::OtherKind.rule(), 0),
        ),
        (
            b"RIFF".as_slice(),
            0,
            0x52,
            by_rule(WaveRule::NoRiff.rule(), 0),
        ),
        (
            b"fLaC".as_slice(),
            0,
            0x66,
            by_rule(FlacRule::CutBlock.rule(), 4),
        ),
    ];
    for (file, place, byte, wanted) in rows {
        let mut bytes = Vec::from_slice(rt.alloc(), file)?;
        assert!(rt; place < bytes.len());
        bytes[place] = byte;
        assert_eq!(rt;
            answer_to(rt.alloc(), bytes.as_slice()),
            wanted,
            "byte {place} as {byte}"
        );
    }
    assert_eq!(rt;
        answer_to(rt.alloc(), b"".as_slice()),
        by_rule(KindRule::OtherKind.rule(), 0)
    );
    Ok(())
}

/// A FLAC file with a block of comments behind STREAMINFO.
fn commented(alloc: Global, content: &[u8]) -> Result<Vec<u8>, Fail> {
    let mut bytes = Vec::from_slice(alloc, &FLAC[..42])?;
    bytes[4] = 0x00;
    bytes.extend_from_slice([0x84, 0x00, 0x00, content.len().min(255) as u8].as_slice())?;
    bytes.extend_from_slice(content)?;
    bytes.extend_from_slice(&FLAC[42..])?;
    Ok(bytes)
}

/// Each row: the content of a block of comments, which begins at 46, and the answer.
#[test]
fn comments_of_files(rt: HostRuntime) -> Result<(), Fail> {
    let rows = [
        ([0, 0, 0, 0, 0, 0, 0, 0].as_slice(), Answer::Flac(16)),
        (
            [0, 0, 0, 0, 1, 0, 0, 0, 1, 0, 0, 0, 65].as_slice(),
            Answer::Flac(16),
        ),
        (
            [5, 0, 0, 0, 0, 0, 0, 0].as_slice(),
            by_rule(CommentRule::CutVendor.rule(), 46),
        ),
        (
            [0, 0, 0, 0, 1, 0, 0, 0].as_slice(),
            by_rule(CommentRule::CutComment.rule(), 54),
        ),
        (
            [0, 0, 0, 0, 0, 0, 0, 0, 0].as_slice(),
            by_rule(CommentRule::BytesLeft.rule(), 54),
        ),
    ];
    for (content, wanted) in rows {
        let bytes = commented(rt.alloc(), content)?;
        assert_eq!(rt; answer_to(rt.alloc(), bytes.as_slice()), wanted);
    }
    Ok(())
}

/// Each row: a file of samples of 1, and how many each channel has.
#[test]
fn sounds_of_both_kinds(rt: HostRuntime) -> Result<(), Fail> {
    let rows = [(WAVE.as_slice(), 2), (FLAC.as_slice(), 16)];
    for (bytes, frames) in rows {
        assert!(rt; frames >= 2);
        let accepted = accept(rt.alloc(), bytes)?;
        let sound = AnySound::over(bytes, &accepted);
        assert_eq!(rt;
            (sound.channels(), sound.depth(), sound.frames()),
            (1, 16, frames)
        );
        let mut scratch = Scratch::new(rt.alloc(), sound.scratch_size())?;
        let mut out = [7, 7];
        sound.fill(0, frames - 2, &mut out, &mut scratch);
        assert_eq!(rt; out, [1, 1]);
    }
    Ok(())
}
