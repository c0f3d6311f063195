//! Worked values: those of the recurrence, worked in whole numbers apart from the program.
use k_filter::Filter;

#[test]
fn one_piece_or_two(rt: HostRuntime) {
    let mut whole = Filter::new(48_000);
    let mut out = [0; 2];
    whole.feed(&[1, 0], 16, &mut out);
    assert_eq!(rt; out, [6288, -457]);
    let mut cut = Filter::new(48_000);
    let mut first = [0; 1];
    cut.feed(&[1], 16, &mut first);
    let mut second = [0; 1];
    cut.feed(&[0], 16, &mut second);
    assert_eq!(rt; (first, second), ([6288], [-457]));
}
