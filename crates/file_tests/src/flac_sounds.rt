//! Parts of a sound, decoded from the bytes of its file.
use flac_stream::{FlacSound, read};
use lib_base::{Memory, Scratch, Sound};
use std::alloc::Global;
use std::test::Fail;

/// Two channels of 8 bits, in frames of 16, 16 and 5 samples. The second frame holds left and side.
const FILE: [u8; 151] = [
    0x66, 0x4C, 0x61, 0x43, 0x80, 0x00, 0x00, 0x22, 0x00, 0x10, 0x00, 0x10, 0x00, 0x00, 0x00, 0x00,
    0x00, 0x00, 0x0B, 0xB8, 0x02, 0x70, 0x00, 0x00, 0x00, 0x25, 0x00, 0x00, 0x00, 0x00, 0x00, 0x00,
    0x00, 0x00, 0x00, 0x00, 0x00, 0x00, 0x00, 0x00, 0x00, 0x00, 0xFF, 0xF8, 0x6A, 0x12, 0x00, 0x0F,
    0x2F, 0x02, 0xEC, 0xED, 0xEE, 0xEF, 0xF0, 0xF1, 0xF2, 0xF3, 0xF4, 0xF5, 0xF6, 0xF7, 0xF8, 0xF9,
    0xFA, 0xFB, 0x02, 0xC4, 0xC7, 0xCA, 0xCD, 0xD0, 0xD3, 0xD6, 0xD9, 0xDC, 0xDF, 0xE2, 0xE5, 0xE8,
    0xEB, 0xEE, 0xF1, 0x3F, 0x40, 0xFF, 0xF8, 0x6A, 0x82, 0x01, 0x0F, 0x93, 0x02, 0xFC, 0xFD, 0xFE,
    0xFF, 0x00, 0x01, 0x02, 0x03, 0x04, 0x05, 0x06, 0x07, 0x08, 0x09, 0x0A, 0x0B, 0x02, 0x04, 0x01,
    0x80, 0x80, 0x20, 0x07, 0xFB, 0xF9, 0xFA, 0xFC, 0x7D, 0xBE, 0x9F, 0x2F, 0x87, 0xBB, 0xD9, 0xEA,
    0x03, 0x14, 0xFF, 0xF8, 0x6A, 0x12, 0x02, 0x04, 0x34, 0x02, 0x0C, 0x0D, 0x0E, 0x0F, 0x10, 0x02,
    0x24, 0x27, 0x2A, 0x2D, 0x30, 0x89, 0x25,
];

/// Its samples, as `flac -d` gives them.
const LISTS: [[i32; 37]; 2] = [
    [
        -20, -19, -18, -17, -16, -15, -14, -13, -12, -11, -10, -9, -8, -7, -6, -5, -4, -3, -2, -1,
        0, 1, 2, 3, 4, 5, 6, 7, 8, 9, 10, 11, 12, 13, 14, 15, 16,
    ],
    [
        -60, -57, -54, -51, -48, -45, -42, -39, -36, -33, -30, -27, -24, -21, -18, -15, -12, -9,
        -6, -3, 0, 3, 6, 9, 12, 15, 18, 21, 24, 27, 30, 33, 36, 39, 42, 45, 48,
    ],
];

/// A sound over a file is two references, and holds no sample.
const _: () = prove!(size_of::<FlacSound<'static>>() == 24);

/// A part of a channel, if the sound has such a part.
fn part_of<S: Sound>(
    alloc: Global,
    sound: &S,
    channel: usize,
    start: u64,
    count: usize,
) -> Result<Option<Vec<i32>>, Memory> {
    let frames = sound.frames();
    if channel >= sound.channels() || start > frames || count as u64 > frames - start {
        return Ok(None);
    }
    let mut scratch = Scratch::new(alloc, sound.scratch_size())?;
    let mut part = vec![in alloc; 7; count]?;
    sound.fill(channel, start, part.as_mut_slice(), &mut scratch);
    Ok(Some(part))
}

/// Each row: a channel, the first sample of a part, and how many it has.
#[test]
fn parts_within_frames_and_across_them(rt: HostRuntime) -> Result<(), Fail> {
    let parts = [
        (0, 0, 37),
        (1, 0, 37),
        (0, 3, 5),
        (1, 14, 4),
        (1, 15, 1),
        (0, 16, 1),
        (1, 16, 16),
        (0, 10, 25),
        (1, 31, 2),
        (0, 32, 5),
        (1, 33, 4),
        (0, 36, 1),
        (1, 5, 0),
        (0, 37, 0),
    ];
    let file = read(rt.alloc(), FILE.as_slice())?;
    let sound = FlacSound::over(FILE.as_slice(), &file);
    assert_eq!(rt;
        (sound.channels(), sound.depth(), sound.frames()),
        (2, 8, 37)
    );
    for (channel, start, count) in parts {
        assert!(rt; channel < 2 && start <= 37 && count <= 37 - start);
        let samples = &LISTS[channel][start..start + count];
        let samples = Vec::from_slice(rt.alloc(), samples)?;
        assert_eq!(rt;
            part_of(rt.alloc(), &sound, channel, start as u64, count)?,
            Some(samples),
            "{count} samples of channel {channel} from {start}"
        );
    }
    Ok(())
}
