//! Worked lists, restored and refused.
use flac_predict::{OutOfDepth, Stereo, restore_fixed, restore_linear, undo_stereo};

#[test]
fn a_straight_line(rt: HostRuntime) {
    let mut fixed = [0, 1, 0, 0];
    assert_eq!(rt; restore_fixed(2, &mut fixed, 16), Ok(()));
    assert_eq!(rt; fixed, [0, 1, 2, 3]);
    let mut linear = [0, 1, 0, 0];
    assert_eq!(rt; restore_linear(&[2, -1], 0, &mut linear, 16), Ok(()));
    assert_eq!(rt; linear, [0, 1, 2, 3]);
}

#[test]
fn past_the_greatest_sample(rt: HostRuntime) {
    let mut samples = [32_767, 1];
    assert_eq!(rt;
        restore_fixed(1, &mut samples, 16),
        Err(OutOfDepth { place: 1 })
    );
}

#[test]
fn the_least_pair(rt: HostRuntime) {
    let (mut mid, mut side) = ([-32_768], [-1]);
    assert_eq!(rt;
        undo_stereo(Stereo::MidSide, &mut mid, &mut side, 16),
        Ok(())
    );
    assert_eq!(rt; (mid, side), ([-32_768], [-32_767]));
}
