//! Worked values: those of the definition, worked in whole numbers apart from the program.
use lib_base::{PcmSound, Scratch};
use std::test::Fail;
use true_peak::{PeakMeter, peak_of_range};

#[test]
fn one_and_two_samples(rt: HostRuntime) {
    let mut one = PeakMeter::new();
    one.feed(&[16_384], 16);
    assert_eq!(rt; one.finish(), 1 << 35);

    // half a place between two of them, which is heard five places past the end
    let mut two = PeakMeter::new();
    two.feed(&[16_384], 16);
    two.feed(&[16_384], 16);
    assert_eq!(rt; two.finish(), 10_198 << 22);
    assert_eq!(rt; PeakMeter::new().finish(), 0);
}

#[test]
fn stretches_around_a_sample(rt: HostRuntime) -> Result<(), Fail> {
    let alloc = rt.alloc();
    let samples = vec![in alloc; 0, 0, 1]?;
    let sound = PcmSound::new(24, vec![in alloc; samples]?);
    let mut scratch = Scratch::new(alloc, 0)?;
    let greatest = [
        8192u64, 8192, 8192, 7964, 7964, 7964, 7964, 7964, 7964, 1641, 832, 477, 271, 239, 0,
    ];
    for from in 0..15u64 {
        let peak = peak_of_range(&sound, 0, from, 14, &mut scratch);
        assert_eq!(rt; peak, greatest[from as usize], "from {from}");
    }
    Ok(())
}
