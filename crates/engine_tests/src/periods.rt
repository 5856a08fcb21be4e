//! Periods cut out of the hours held.
use crate::common::hour;
use designs::{Period, PeriodRefusal, cut};
use std::test::Fail;

/// How many hours were handed on, or the refusal's number with the hour's place.
fn told(answer: Result<Period, PeriodRefusal>) -> Result<usize, (u8, Option<usize>)> {
    answer
        .map(|period| period.hours().len())
        .map_err(|refusal| (refusal.number(), refusal.hour()))
}

#[test]
fn counts_and_the_last_hour(rt: HostRuntime) {
    let held = [hour(1, 0); 841];
    assert_eq!(rt; told(cut(&held, 0, 0)), Err((11, None)));
    assert_eq!(rt; told(cut(&held, 0, 1)), Ok(1));
    assert_eq!(rt; told(cut(&held, 0, 840)), Ok(840));
    assert_eq!(rt; told(cut(&held, 0, 841)), Err((11, None)));
    assert_eq!(rt; told(cut(&held, 1, 840)), Ok(840));
    assert_eq!(rt; told(cut(&held, 2, 840)), Err((12, None)));
    assert_eq!(rt; told(cut(&held, 840, 1)), Ok(1));
    assert_eq!(rt; told(cut(&held, 841, 1)), Err((12, None)));
    assert_eq!(rt; told(cut(&held, usize::MAX, 1)), Err((12, None)));
    assert_eq!(rt; told(cut(&held, usize::MAX, usize::MAX)), Err((11, None)));
}

#[test]
fn ranges_of_an_hour(rt: HostRuntime) {
    assert_eq!(rt; told(cut(&[hour(0, 0)], 0, 1)), Ok(1));
    assert_eq!(rt; told(cut(&[hour(100_000, -100_000)], 0, 1)), Ok(1));
    assert_eq!(rt; told(cut(&[hour(100_000, 400_000)], 0, 1)), Ok(1));
    assert_eq!(rt; told(cut(&[hour(100_001, 0)], 0, 1)), Err((13, Some(0))));
    assert_eq!(rt; told(cut(&[hour(u64::MAX, 0)], 0, 1)), Err((13, Some(0))));
    assert_eq!(rt; told(cut(&[hour(0, -100_001)], 0, 1)), Err((14, Some(0))));
    assert_eq!(rt; told(cut(&[hour(0, 400_001)], 0, 1)), Err((14, Some(0))));
    assert_eq!(rt; told(cut(&[hour(0, i64::MIN)], 0, 1)), Err((14, Some(0))));
    assert_eq!(rt;
        told(cut(&[hour(100_001, 400_001)], 0, 1)),
        Err((13, Some(0)))
    );
}

#[test]
fn the_first_bad_hour_is_told_by_its_place_in_the_period(rt: HostRuntime) {
    let held = [
        hour(100_001, 0),
        hour(1, 0),
        hour(2, -5),
        hour(3, 400_001),
        hour(100_001, 0),
        hour(4, 7),
    ];
    assert_eq!(rt; told(cut(&held, 0, 6)), Err((13, Some(0))));
    assert_eq!(rt; told(cut(&held, 1, 2)), Ok(2));
    assert_eq!(rt; told(cut(&held, 1, 5)), Err((14, Some(2))));
    assert_eq!(rt; told(cut(&held, 2, 3)), Err((14, Some(1))));
    assert_eq!(rt; told(cut(&held, 4, 2)), Err((13, Some(0))));
    assert_eq!(rt; told(cut(&held, 5, 1)), Ok(1));
    assert_eq!(rt; told(cut(&held, 4, 3)), Err((12, None)));
}

#[test]
fn the_part_handed_on_begins_at_the_start(rt: HostRuntime) -> Result<(), Fail> {
    let held = [hour(10, 1), hour(20, -2), hour(30, 3), hour(40, 4)];
    let part = cut(&held, 1, 2)?.hours();
    assert!(rt; part.len() == 2);
    assert_eq!(rt; part[0].kwh, 20);
    assert_eq!(rt; part[0].price.0, -2);
    assert_eq!(rt; part[1].kwh, 30);
    Ok(())
}
