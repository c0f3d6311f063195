//! Worked levels and texts, and that the texts can be made.
use db_table::*;
use std::test::Fail;

#[test]
fn levels_of_ratios(rt: HostRuntime) {
    for (a, b, half_hundredths, want) in [
        (10, 1, 2000, 1000),
        (1, 1, 0, 0),
        (2, 1, 602, 301),
        (1, 2, -603, -301),
        (1995, 1000, 599, 300),
        // 2000 times the decimal logarithm of 2^92 is 55389.5
        ((1 << 92) - 1, 1, 55_389, 27_695),
        (1, (1 << 92) - 1, -55_390, -27_695),
    ] {
        let found = level(a, b);
        assert_eq!(rt; found, half_hundredths, "{a} / {b}");
        assert_eq!(rt; hundredths(found), want, "{a} / {b}");
    }
}

#[test]
fn buckets_of_levels(rt: HostRuntime) {
    for (half_hundredths, want) in [
        (-14_000, 0),
        (-13_981, 0),
        (-13_980, 1),
        (6_460, 1023),
        (i32::MIN, 0),
        (i32::MAX, 1023),
    ] {
        assert_eq!(rt; bucket(half_hundredths), want, "{half_hundredths}");
    }
}

#[test]
fn texts_of_gains(rt: HostRuntime) -> Result<(), Fail> {
    for (gain, want) in [
        (5, "0.05 dB"),
        (-5, "-0.05 dB"),
        (-99, "-0.99 dB"),
        (-1731, "-17.31 dB"),
        (i32::MIN, "-21474836.48 dB"),
    ] {
        let text = gain_text(rt.alloc(), gain)?;
        assert_eq!(rt; text.as_str(), want);
    }
    let number = decimal_text(rt.alloc(), -8936)?;
    assert_eq!(rt; number.as_str(), "-89.36");
    Ok(())
}

#[test]
fn texts_of_peaks(rt: HostRuntime) -> Result<(), Fail> {
    for (peak, want) in [
        (0, "0.000000"),
        (1, "0.000001"),
        (9141 * 256, "0.000035"),
        (1 << 36, "1.000000"),
        (u64::MAX, "268435456.000000"),
    ] {
        let text = peak_text(rt.alloc(), peak)?;
        assert_eq!(rt; text.as_str(), want);
    }
    Ok(())
}
