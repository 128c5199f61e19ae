// Worked boundaries, by hand: 24 samples a cycle at 1200 Hz and 50 Hz.
use crate::{Boundaries, Boundary, Rule, first, next};

const CYCLE: [i64; 24] = [
    0, 2588, 5000, 7071, 8660, 9659, 10000, 9659, 8660, 7071, 5000, 2588, 0, -2588, -5000, -7071,
    -8660, -9659, -10000, -9659, -8660, -7071, -5000, -2588,
];

#[test]
fn boundaries_of_worked_signals(rt: HostRuntime) {
    let rule = Rule::of(1_200_000_000, 50);
    assert_eq!(rt; (rule.h, rule.lo, rule.hi), (12, 10, 15));

    let mut sine = [0; 552];
    for i in 0..552 {
        sine[i] = CYCLE[i % 24];
    }
    let (short, longer) = (&sine[..504], &sine[..505]);

    // two_intervals: the signal begins at zero, so its first rising crossing is a cycle on
    assert_eq!(rt; first(&sine, &rule), Some(24));
    assert_eq!(rt; next(&sine, &rule, 24, false), Some(36));
    assert_eq!(rt; next(&sine, &rule, 36, true), Some(48));

    // crossing_without_sample: the crossing at place 504 has none among 504 samples, and one among 505
    assert_eq!(rt; next(short, &rule, 480, false), Some(492));
    assert_eq!(rt; next(short, &rule, 492, true), None);
    assert_eq!(rt; next(longer, &rule, 492, true), Some(504));

    // all_zero: no crossing anywhere
    let silence = [0; 50];
    assert_eq!(rt; first(&silence, &rule), Some(0));
    assert_eq!(rt; next(&silence, &rule, 0, false), Some(12));
    assert_eq!(rt; next(&silence, &rule, 24, false), Some(36));
    assert_eq!(rt; next(&silence, &rule, 36, true), None);
    assert_eq!(rt; first(&[], &rule), None);
}

#[test]
fn boundaries_one_after_another(rt: HostRuntime) {
    let rule = Rule::of(1_200_000_000, 50);
    let silence = [0; 39];
    let mut boundaries = Boundaries::new(&silence, rule);
    for (place, rising) in [(0, true), (12, false), (24, true)] {
        assert_eq!(rt; boundaries.next(), Some(Boundary { place, rising }));
    }
    assert_eq!(rt; boundaries.next(), None);
    assert_eq!(rt; boundaries.next(), None);
}
