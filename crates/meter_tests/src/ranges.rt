//! Worked places and ranges, and that the ranges can be made.
use loudness_range::*;
use std::test::Fail;

#[test]
fn places_of_percentiles(rt: HostRuntime) {
    for (n, p, want) in [
        (20, 95, 18),
        (20, 10, 2),
        (2, 50, 1),
        (1, 100, 0),
        (1 << 25, 100, (1 << 25) - 1),
    ] {
        assert_eq!(rt; percentile_place(n, p), want, "{p} of {n}");
    }
}

#[test]
fn ranges_of_windows(rt: HostRuntime) -> Result<(), Fail> {
    let low = 144_000 << 54;
    let tie = 1 << 70;
    for (windows, want) in [
        ([].as_slice(), None),
        ([0].as_slice(), None),
        ([low].as_slice(), Some(0)),
        // four times the power is 6.02 LU
        ([low, 4 * low].as_slice(), Some(602)),
        ([4 * low, low].as_slice(), Some(602)),
        // a hundredth of the mean is kept: 199 times the power is 22.99 LU
        ([tie, 199 * tie].as_slice(), Some(2299)),
        // one below is dropped
        ([tie - 1, 199 * tie + 1].as_slice(), Some(0)),
    ] {
        assert_eq!(rt; range(rt.alloc(), windows)?, want, "{windows:?}");
    }
    Ok(())
}
