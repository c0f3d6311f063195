//! Worked rows.
use gate_blocks::{
    SegmentMeter, add_weighted, block_level, blocks, loudness, weight, window_level, windows,
};
use lib_base::Memory;
use std::alloc::Global;
use std::test::Fail;

/// The square of full scale.
const FULL: u128 = 1 << 54;

/// A meter that was fed so many values of 2, one at a time.
fn fed_twos(alloc: Global, frames: u64) -> Result<SegmentMeter, Memory> {
    let mut meter = SegmentMeter::new(alloc, frames)?;
    for _ in 0..frames {
        meter.feed(&[2]);
    }
    Ok(meter)
}

// 4,800 squares of 2 sum to 19,200, and 4 segments of them to 76,800.
#[test]
fn incomplete_segments_and_blocks_are_none(rt: HostRuntime) -> Result<(), Fail> {
    let alloc = rt.alloc();
    for (frames, whole, sums) in [(4_799, 0, 0), (4_800, 1, 0), (19_199, 3, 0), (19_200, 4, 1)] {
        let meter = fed_twos(alloc, frames)?;
        let segments = meter.energies();
        assert_eq!(rt; segments.len(), whole, "segments of {frames}");
        assert!(rt; segments.iter().all(|energy| *energy == 19_200));
        let found = blocks(alloc, segments)?;
        assert_eq!(rt; found.len(), sums, "blocks of {frames}");
        assert!(rt; found.as_slice().iter().all(|energy| *energy == 76_800));
    }
    Ok(())
}

// 144,000 values are 30 segments.
#[test]
fn windows_have_thirty_segments(rt: HostRuntime) -> Result<(), Fail> {
    let alloc = rt.alloc();
    for (frames, sums) in [(143_999, 0), (144_000, 1), (148_800, 2)] {
        let meter = fed_twos(alloc, frames)?;
        let found = windows(alloc, meter.energies())?;
        assert_eq!(rt; found.len(), sums, "windows of {frames}");
        assert!(rt; found.as_slice().iter().all(|energy| *energy == 30 * 19_200));
    }
    Ok(())
}

// 125 * 1920000 / (24 * 11724653) is 0.8529, which is -0.69 dB, and a window of the same power is 7.5
// times a block. 10 * 2 * 19200 = 19200 + 364800 is a tie, so the first of the two blocks is dropped.
#[test]
fn levels_are_those_of_worked_rows(rt: HostRuntime) {
    assert_eq!(rt; loudness(&[]), None);
    assert_eq!(rt; loudness(&[1]), None);
    assert_eq!(rt; loudness(&[1_920_000 * FULL]), Some(-69));
    assert_eq!(rt; loudness(&[19_200 * FULL, 364_800 * FULL]), Some(-790));
    assert_eq!(rt; loudness(&[19_200 * FULL]), Some(-2_069));
    assert_eq!(rt; block_level(0), None);
    assert_eq!(rt; block_level(1_920_000 * FULL), Some(-69));
    assert_eq!(rt; window_level(0), None);
    assert_eq!(rt; window_level(14_400_000 * FULL), Some(-69));
}

// The weights of BS.1770-4, for the channels in the order of a file.
#[test]
fn channels_have_their_weights(rt: HostRuntime) {
    let rows = [
        (1, [100, 0, 0, 0, 0, 0]),
        (2, [100, 100, 0, 0, 0, 0]),
        (3, [100, 100, 100, 0, 0, 0]),
        (4, [100, 100, 141, 141, 0, 0]),
        (5, [100, 100, 100, 141, 141, 0]),
        (6, [100, 100, 100, 0, 141, 141]),
    ];
    for (channels, weights) in rows {
        for (channel, want) in weights.iter().enumerate().take(channels) {
            assert_eq!(rt; weight(channels, channel), *want, "{channel} of {channels}");
        }
    }
}

#[test]
fn a_channel_is_added_by_its_weight(rt: HostRuntime) {
    let mut total = [7, 0, 3];
    add_weighted(&mut total, &[1, 2, 0], 141);
    assert_eq!(rt; total, [148, 282, 3]);
}
