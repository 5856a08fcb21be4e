//! The routine that runs an account into a first term, and the term worked by hand.
use crate::common::*;
use account::{Account, Draft, Reading, first_term, worked_months};
use designs::Flat;
use reconciliation::{Cents, RateUnits};
use std::test::Fail;

/// A first term of an account that begins with this balance, from the same two drafts.
fn run(balance: i64, held: u64) -> Result<Option<Reading>, Fail> {
    let mut account = Account::unopened(plain(0)?);
    let design = flat(6_453, 10_515, 21, 339)?;
    let next = flat(6_600, 10_515, 21, 339)?;
    let draft = Draft::new(1, 0, 999_999)?;
    let again = Draft::new(450_000, 500_000, 550_000)?;
    let opening = opening(7, balance, [590, 600, 800], design);
    Ok(first_term(
        &mut account,
        opening,
        draft,
        again,
        next,
        Cents(50_000),
        &[hour(held, 0)],
    ))
}

#[test]
fn a_first_term_comes_to_its_reading(rt: HostRuntime) -> Result<(), Fail> {
    assert_eq!(rt;
        run(1_234_567, 1_000)?,
        Some(Reading {
            months: 2,
            e: RateUnits(823),
            pending: None,
            balance: Cents(1_288_821),
        })
    );
    Ok(())
}

#[test]
fn a_first_term_ends_where_a_call_is_refused(rt: HostRuntime) -> Result<(), Fail> {
    assert_eq!(rt; run(10_000_000_000_001, 1_000)?, None);
    assert_eq!(rt; run(100_000_000_001, 1_000)?, None);
    assert_eq!(rt; run(1_234_567, 100_001)?, None);
    Ok(())
}

#[test]
fn the_term_worked_by_hand_has_two_billed_months(rt: HostRuntime) {
    assert_eq!(rt; worked_months(), 2);
}
