//! Rounding to the nearest whole number, an exact half away from zero.
use rounding::{round_money, round_rate, times};

#[test]
fn a_half_goes_away_from_zero(rt: HostRuntime) {
    let cases: [(i128, u64, i128); 16] = [
        (0, 1, 0),
        (7, 1, 7),
        (5, 2, 3),
        (-5, 2, -3),
        (3, 2, 2),
        (-3, 2, -2),
        (1, 2, 1),
        (-1, 2, -1),
        (4, 2, 2),
        (-4, 2, -2),
        (1, 3, 0),
        (2, 3, 1),
        (-1, 3, 0),
        (-2, 3, -1),
        (2_499, 1_000, 2),
        (-2_500, 1_000, -3),
    ];
    for case in &cases {
        let (n, d, rounded) = *case;
        assert!(rt; d > 0);
        assert_eq!(rt; round_money(n, d), rounded);
        assert_eq!(rt; round_rate(n, d), rounded);
    }
}

#[test]
fn the_widest_numbers_are_rounded_too(rt: HostRuntime) {
    let top = i128::MAX;
    let bottom = i128::MIN;
    assert_eq!(rt; round_money(top, 1), top);
    assert_eq!(rt; round_money(bottom, 1), bottom);
    assert_eq!(rt;
        round_rate(top, 2),
        85_070_591_730_234_615_865_843_651_857_942_052_864
    );
    assert_eq!(rt;
        round_rate(bottom, 2),
        -85_070_591_730_234_615_865_843_651_857_942_052_864
    );
    assert_eq!(rt;
        round_rate(bottom, 18_446_744_073_709_551_615),
        -9_223_372_036_854_775_809
    );
}

#[test]
fn products_keep_their_sign(rt: HostRuntime) {
    assert_eq!(rt; times(0, -7), 0);
    assert_eq!(rt; times(3, -7), -21);
    assert_eq!(rt;
        times(u64::MAX, i64::MIN),
        -170_141_183_460_469_231_722_463_931_679_029_329_920
    );
    assert_eq!(rt;
        times(u64::MAX, i64::MAX),
        170_141_183_460_469_231_704_017_187_605_319_778_305
    );
}
