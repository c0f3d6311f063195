//! Worked files.
use file_model::WaveRule;
use lib_base::{Broken, Refused, Scratch, Sound, Span};
use std::alloc::Global;
use std::test::Fail;
use wave_chunks::*;

/// Two frames of one channel, 16 bits: the samples 1 and -2.
const MONO: [u8; 48] =
    *b"RIFF\x28\0\0\0WAVEfmt \x10\0\0\0\x01\0\x01\0\x80\xbb\0\0\0\x77\x01\0\x02\0\x10\0data\x04\0\0\0\x01\0\xfe\xff";

/// The same, with an empty `data` chunk behind.
const TWICE: [u8; 56] =
    *b"RIFF\x30\0\0\0WAVEfmt \x10\0\0\0\x01\0\x01\0\x80\xbb\0\0\0\x77\x01\0\x02\0\x10\0data\x04\0\0\0\x01\0\xfe\xffdata\0\0\0\0";

/// The same, with a `bext` chunk of two bytes behind.
const SHORT_BEXT: [u8; 58] =
    *b"RIFF\x32\0\0\0WAVEfmt \x10\0\0\0\x01\0\x01\0\x80\xbb\0\0\0\x77\x01\0\x02\0\x10\0data\x04\0\0\0\x01\0\xfe\xffbext\x02\0\0\0\0\0";

/// The same, with the `fmt ` chunk behind the samples.
const SWAPPED: [u8; 48] =
    *b"RIFF\x28\0\0\0WAVEdata\x04\0\0\0\x01\0\xfe\xfffmt \x10\0\0\0\x01\0\x01\0\x80\xbb\0\0\0\x77\x01\0\x02\0\x10\0";

/// A `LIST` chunk of one byte with its pad byte, an empty chunk of another name, and one sample of 24
/// bits, -8388608, with the last pad byte.
const ODD: [u8; 66] =
    *b"RIFF\x3a\0\0\0WAVELIST\x01\0\0\0\x09\x07junk\0\0\0\0fmt \x10\0\0\0\x01\0\x01\0\x80\xbb\0\0\0\0\0\0\x03\0\x18\0data\x03\0\0\0\0\0\x80\0";

/// No frame of two channels, 24 bits, in the extensible form.
const EXTENSIBLE: [u8; 68] =
    *b"RIFF\x3c\0\0\0WAVEfmt \x28\0\0\0\xfe\xff\x02\0\x80\xbb\0\0\0\0\0\0\x06\0\x18\0\x16\0\x14\0\x03\0\0\0\x01\0\0\0\0\0\x10\0\x80\0\0\xaa\0\x38\x9b\x71data\0\0\0\0";

/// One frame of six channels, 24 bits: 1, -1, 65536, -65536, 8388607 and -8388608.
const SIX: [u8; 62] =
    *b"RIFF\x36\0\0\0WAVEfmt \x10\0\0\0\x01\0\x06\0\x80\xbb\0\0\0\0\0\0\x12\0\x18\0data\x12\0\0\0\x01\0\0\xff\xff\xff\0\0\x01\0\0\xff\xff\xff\x7f\0\0\x80";

/// What a file is refused with, if it is.
fn refusal(alloc: Global, bytes: &[u8]) -> Option<Refused> {
    match read(alloc, bytes) {
        Ok(_) => None,
        Err(refused) => Some(refused),
    }
}

/// The refusal by a rule at a place.
fn by_rule(rule: WaveRule, place: u64) -> Option<Refused> {
    Some(Refused::Broken(Broken {
        rule: rule.rule(),
        place,
    }))
}

#[test]
fn each_edit_breaks_its_rule(rt: HostRuntime) {
    let edits = [
        (0, 0x53, WaveRule::NoRiff, 0),
        (8, 0x58, WaveRule::OtherForm, 8),
        (4, 0x26, WaveRule::OtherSize, 4),
        (40, 0x05, WaveRule::CutChunk, 36),
        (12, 0x78, WaveRule::NoFormat, 48),
        (20, 0x03, WaveRule::OtherFormat, 20),
        (22, 0x07, WaveRule::OtherChannels, 22),
        (24, 0x00, WaveRule::OtherRate, 24),
        (34, 0x08, WaveRule::OtherDepth, 34),
        (32, 0x04, WaveRule::OtherAlign, 32),
        (36, 0x78, WaveRule::NoData, 48),
        (40, 0x03, WaveRule::PartFrame, 36),
    ];
    for (place, value, rule, broken_at) in edits {
        assert!(rt; place < 48);
        let mut bytes = MONO;
        bytes[place] = value;
        assert_eq!(rt;
            refusal(rt.alloc(), bytes.as_slice()),
            by_rule(rule, broken_at),
            "byte {place} as {value}"
        );
    }
}

#[test]
fn longer_edits_are_answered(rt: HostRuntime) {
    let alloc = rt.alloc();
    let mut extensible = MONO;
    extensible[20] = 0xFE;
    extensible[21] = 0xFF;
    assert_eq!(rt;
        refusal(alloc, extensible.as_slice()),
        by_rule(WaveRule::ShortFormat, 20)
    );
    let mut fast = MONO;
    fast[24] = 0x00;
    fast[25] = 0x77;
    fast[26] = 0x01;
    assert_eq!(rt;
        refusal(alloc, fast.as_slice()),
        by_rule(WaveRule::OtherRate, 24)
    );
    let mut subformat = EXTENSIBLE;
    subformat[59] = 0x70;
    assert_eq!(rt;
        refusal(alloc, subformat.as_slice()),
        by_rule(WaveRule::OtherFormat, 20)
    );
    assert_eq!(rt;
        refusal(alloc, TWICE.as_slice()),
        by_rule(WaveRule::RepeatedChunk, 48)
    );
    assert_eq!(rt;
        refusal(alloc, SHORT_BEXT.as_slice()),
        by_rule(WaveRule::ShortBext, 48)
    );
    for size in [0x27, 0x28, 0x29] {
        let mut bytes = MONO;
        bytes[4] = size;
        assert_eq!(rt; refusal(alloc, bytes.as_slice()), None, "size {size}");
    }
}

#[test]
fn each_prefix_is_refused(rt: HostRuntime) {
    for length in 0..48 {
        let wanted = match length {
            0..12 => by_rule(WaveRule::NoRiff, 0),
            12..47 => by_rule(WaveRule::OtherSize, 4),
            _ => by_rule(WaveRule::CutChunk, 36),
        };
        assert_eq!(rt;
            refusal(rt.alloc(), &MONO[..length]),
            wanted,
            "{length} bytes"
        );
    }
}

#[test]
fn each_layout_is_read(rt: HostRuntime) -> Result<(), Fail> {
    let alloc = rt.alloc();
    let swapped = read(alloc, SWAPPED.as_slice())?;
    assert_eq!(rt; swapped.samples(), Span { start: 20, end: 24 });
    assert_eq!(rt;
        (swapped.channels(), swapped.depth(), swapped.frames()),
        (1, 16, 2)
    );
    for length in [65, 66] {
        let odd = read(alloc, &ODD[..length])?;
        assert_eq!(rt; odd.samples(), Span { start: 62, end: 65 });
        assert_eq!(rt; (odd.chunks().len(), odd.depth(), odd.frames()), (4, 24, 1));
        assert_eq!(rt; odd.bext(), None);
    }
    let extensible = read(alloc, EXTENSIBLE.as_slice())?;
    assert_eq!(rt; extensible.samples(), Span { start: 68, end: 68 });
    assert_eq!(rt;
        (
            extensible.channels(),
            extensible.depth(),
            extensible.frames()
        ),
        (2, 24, 0)
    );
    Ok(())
}

/// A sound over a file is a few numbers beside its bytes, and holds no sample.
const _: () = prove!(size_of::<WaveSound<'static>>() == 40);

#[test]
fn samples_are_read(rt: HostRuntime) -> Result<(), Fail> {
    let wave = read(rt.alloc(), SIX.as_slice())?;
    let sound = WaveSound::over(SIX.as_slice(), &wave);
    assert_eq!(rt;
        (sound.channels(), sound.depth(), sound.frames()),
        (6, 24, 1)
    );
    let mut scratch = Scratch::new(rt.alloc(), 0)?;
    let samples = [1, -1, 65_536, -65_536, 8_388_607, -8_388_608];
    for channel in 0..6 {
        let mut out = [7; 1];
        sound.fill(channel, 0, &mut out, &mut scratch);
        assert_eq!(rt; out[0], samples[channel], "channel {channel}");
    }
    let mono = read(rt.alloc(), MONO.as_slice())?;
    let sound = WaveSound::over(MONO.as_slice(), &mono);
    assert_eq!(rt;
        (sound.channels(), sound.depth(), sound.frames()),
        (1, 16, 2)
    );
    let mut out = [7; 2];
    sound.fill(0, 0, &mut out, &mut scratch);
    assert_eq!(rt; out, [1, -2]);
    Ok(())
}
