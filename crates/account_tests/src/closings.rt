//! Closings: worked sums, limits, and the month that begins after them.
use crate::common::*;
use account::{Account, Closing};
use designs::{Flat, Hourly, HourlyFigures, RateDesign};
use reconciliation::Cents;
use std::process::Abort;
use std::test::Fail;

/// What a closing told, or the refusal's number with whether the account was then as before.
fn closing<D: RateDesign>(account: &mut Account<D>) -> Result<Closing, (u8, bool)> {
    let before = seen(account);
    account
        .close()
        .map_err(|refusal| (refusal.number(), seen(account) == before))
}

/// What a closing is to tell: months, tax, net, carrying charge and new balance.
fn closes(
    months: u32,
    tax: i64,
    net: i64,
    charge: i64,
    balance: i64,
) -> Result<Closing, (u8, bool)> {
    Ok(Closing {
        months,
        tax: Cents(tax),
        net: Cents(net),
        charge: Cents(charge),
        balance: Cents(balance),
    })
}

/// Enters a cost; the test fails where it is refused.
fn enter<D>(account: &mut Account<D>, kind: u64, amount: i64) -> Result<(), Fail> {
    Ok(account.cost(kind, Cents(amount))?)
}

/// Bills one hour of this energy at this price, and tells the bill, 0 where it is refused.
fn bill<D: RateDesign>(account: &mut Account<D>, kwh: u64, price: i64) -> i64 {
    account
        .bill(&[hour(kwh, price)], 0, 1)
        .map(|bill| bill.amount.0)
        .unwrap_or(0)
}

/// An account of this balance at tax 5.90 %, under 6 % and over 8 %, with PTC_Current 7,145.
fn usual(balance: i64) -> Result<Account<Flat>, Fail> {
    opened(7, balance, [590, 600, 800], flat(6_453, 10_515, 21, 339)?)
}

#[test]
fn a_first_month_worked_by_hand(rt: HostRuntime) -> Result<(), Fail> {
    let mut account = usual(0)?;
    enter(&mut account, 2, 10_000)?;
    let bill = account.bill(&[hour(1_000, 0)], 0, 1)?;
    assert_eq!(rt; (bill.quantity, bill.amount.0), (1_000, 7_593));
    assert_eq!(rt; read(&account), (0, 0, None, 2_855));
    assert_eq!(rt; closing(&mut account), closes(1, 448, 7_145, 7, 2_862));
    assert_eq!(rt; read(&account), (1, 0, None, 2_862));
    assert_eq!(rt; account.figures().ledger.last.0, 2_862);
    assert_eq!(rt; account.figures().ledger.month, empty_month());
    Ok(())
}

#[test]
fn three_months_on_end(rt: HostRuntime) -> Result<(), Fail> {
    let mut account = usual(-250_000)?;
    enter(&mut account, 2, 500_000)?;
    enter(&mut account, 8, -1_234)?;
    assert_eq!(rt; bill(&mut account, 1_000, 0), 7_593);
    assert_eq!(rt; bill(&mut account, 12_345, 0), 93_736);
    assert_eq!(rt; read(&account), (0, 0, None, 153_415));
    assert_eq!(rt;
        closing(&mut account),
        closes(1, 5_978, 95_351, -322, 153_093)
    );
    enter(&mut account, 1, 40_000)?;
    assert_eq!(rt; bill(&mut account, 66, 0), 501);
    assert_eq!(rt; bill(&mut account, 66, 0), 501);
    assert_eq!(rt; bill(&mut account, 67, 0), 509);
    assert_eq!(rt; closing(&mut account), closes(2, 89, 1_422, 862, 192_533));
    assert_eq!(rt; closing(&mut account), closes(3, 0, 0, 963, 193_496));
    Ok(())
}

#[test]
fn a_year_of_interest_on_each_side(rt: HostRuntime) -> Result<(), Fail> {
    let mut account = usual(1_000_000)?;
    assert_eq!(rt; closed(&mut account, 12), 0);
    assert_eq!(rt; read(&account), (12, 0, None, 1_061_679));
    let mut account = usual(-1_000_000)?;
    assert_eq!(rt; closed(&mut account, 12), 0);
    assert_eq!(rt; read(&account), (12, 0, None, -1_083_003));
    Ok(())
}

#[test]
fn a_negative_sum_is_charged_at_the_over_rate(rt: HostRuntime) -> Result<(), Fail> {
    let mut account = usual(-1_127_509_000)?;
    enter(&mut account, 2, 23_109_585)?;
    assert_eq!(rt;
        closing(&mut account),
        closes(1, 0, 0, -7_440_067, -1_111_839_482)
    );
    Ok(())
}

#[test]
fn the_rate_goes_by_the_sign_of_both_balances(rt: HostRuntime) -> Result<(), Fail> {
    let mut account = usual(-10_000)?;
    enter(&mut account, 1, 14_000)?;
    assert_eq!(rt; closing(&mut account), closes(1, 0, 0, -20, 3_980));
    let mut account = usual(10_000)?;
    enter(&mut account, 1, -14_000)?;
    assert_eq!(rt; closing(&mut account), closes(1, 0, 0, 15, -3_985));
    Ok(())
}

#[test]
fn opposite_balances_bear_no_charge(rt: HostRuntime) -> Result<(), Fail> {
    let mut account = usual(-10_000)?;
    enter(&mut account, 1, 20_000)?;
    assert_eq!(rt; closing(&mut account), closes(1, 0, 0, 0, 10_000));
    let mut account = usual(10_000)?;
    enter(&mut account, 1, -20_000)?;
    assert_eq!(rt; closing(&mut account), closes(1, 0, 0, 0, -10_000));
    Ok(())
}

#[test]
fn half_a_cent_of_charge_goes_away_from_zero(rt: HostRuntime) -> Result<(), Fail> {
    let mut account = opened(1, 100, [0, 600, 600], plain(0)?)?;
    assert_eq!(rt; closing(&mut account), closes(1, 0, 0, 1, 101));
    let mut account = opened(1, -100, [0, 600, 600], plain(0)?)?;
    assert_eq!(rt; closing(&mut account), closes(1, 0, 0, -1, -101));
    let mut account = opened(1, 99, [0, 600, 600], plain(0)?)?;
    enter(&mut account, 1, 1)?;
    assert_eq!(rt; closing(&mut account), closes(1, 0, 0, 0, 100));
    Ok(())
}

/// An account of balance 0 without interest, by an hourly design with no charge but the price of energy.
fn hourly(tax: i64) -> Result<Account<Hourly>, Fail> {
    let design = Hourly::new(HourlyFigures {
        oth: 0,
        loss: 10_000,
        cap: 0,
        adm: 0,
        unc: 0,
    })?;
    opened(1, 0, [tax, 0, 0], design)
}

#[test]
fn half_a_cent_of_tax_goes_away_from_zero(rt: HostRuntime) -> Result<(), Fail> {
    let mut account = hourly(200)?;
    assert_eq!(rt; bill(&mut account, 1, 24_500), 25);
    assert_eq!(rt; closing(&mut account), closes(1, 1, 24, 0, -24));
    let mut account = hourly(200)?;
    assert_eq!(rt; bill(&mut account, 1, -24_500), -25);
    assert_eq!(rt; closing(&mut account), closes(1, -1, -24, 0, 24));
    Ok(())
}

#[test]
fn tax_is_taken_of_the_total_and_not_of_each_bill(rt: HostRuntime) -> Result<(), Fail> {
    let mut account = hourly(2_000)?;
    assert_eq!(rt; bill(&mut account, 1, 1_600), 2);
    assert_eq!(rt; closing(&mut account), closes(1, 0, 2, 0, -2));
    assert_eq!(rt; bill(&mut account, 1, 1_600), 2);
    assert_eq!(rt; bill(&mut account, 1, 1_600), 2);
    assert_eq!(rt; closing(&mut account), closes(2, 1, 3, 0, -5));
    Ok(())
}

#[test]
fn the_largest_balance_closes(rt: HostRuntime) -> Result<(), Fail> {
    let mut account = opened(1, 10_000_000_000_000, [0; 3], plain(1_000)?)?;
    assert_eq!(rt;
        closing(&mut account),
        closes(1, 0, 0, 0, 10_000_000_000_000)
    );
    enter(&mut account, 3, 1)?;
    assert_eq!(rt; closing(&mut account), Err((36, true)));
    assert_eq!(rt; read(&account), (1, 0, None, 10_000_000_000_001));
    assert_eq!(rt; bill(&mut account, 1, 0), 1);
    assert_eq!(rt;
        closing(&mut account),
        closes(2, 0, 1, 0, 10_000_000_000_000)
    );
    Ok(())
}

#[test]
fn the_lowest_balance_closes(rt: HostRuntime) -> Result<(), Fail> {
    let mut account = opened(1, -10_000_000_000_000, [0; 3], plain(1_000)?)?;
    assert_eq!(rt;
        closing(&mut account),
        closes(1, 0, 0, 0, -10_000_000_000_000)
    );
    assert_eq!(rt; bill(&mut account, 1, 0), 1);
    assert_eq!(rt; closing(&mut account), Err((36, true)));
    assert_eq!(rt; read(&account), (1, 0, None, -10_000_000_000_001));
    enter(&mut account, 3, 1)?;
    assert_eq!(rt;
        closing(&mut account),
        closes(2, 0, 1, 0, -10_000_000_000_000)
    );
    Ok(())
}

/// An account with this balance before the charge, entered as 99 costs of this size and a rest, at 24 % on both sides.
fn before_the_charge(rt: &impl Abort, size: i64, rest: i64) -> Result<Account<Flat>, Fail> {
    let mut account = opened(1, 0, [0, 2_400, 2_400], plain(0)?)?;
    assert_eq!(rt; entered_often(&mut account, 4, size, 99), 0);
    enter(&mut account, 4, rest)?;
    Ok(account)
}

#[test]
fn the_charge_may_not_carry_the_balance_too_high(rt: HostRuntime) -> Result<(), Fail> {
    let mut account = before_the_charge(&rt, 100_000_000_000, 990_099_010)?;
    assert_eq!(rt;
        closing(&mut account),
        closes(1, 0, 0, 99_009_900_990, 10_000_000_000_000)
    );
    assert_eq!(rt; closing(&mut account), Err((36, true)));
    let mut account = before_the_charge(&rt, 100_000_000_000, 990_099_011)?;
    assert_eq!(rt; closing(&mut account), Err((36, true)));
    Ok(())
}

#[test]
fn the_charge_may_not_carry_the_balance_too_low(rt: HostRuntime) -> Result<(), Fail> {
    let mut account = before_the_charge(&rt, -100_000_000_000, -990_099_010)?;
    assert_eq!(rt;
        closing(&mut account),
        closes(1, 0, 0, -99_009_900_990, -10_000_000_000_000)
    );
    assert_eq!(rt; closing(&mut account), Err((36, true)));
    let mut account = before_the_charge(&rt, -100_000_000_000, -990_099_011)?;
    assert_eq!(rt; closing(&mut account), Err((36, true)));
    Ok(())
}

#[test]
fn an_account_closes_twelve_hundred_months(rt: HostRuntime) -> Result<(), Fail> {
    let mut account = opened(1, 10_000_000_000_000, [0; 3], plain(1_000)?)?;
    assert_eq!(rt; closed(&mut account, 1_199), 0);
    assert_eq!(rt;
        closing(&mut account),
        closes(1_200, 0, 0, 0, 10_000_000_000_000)
    );
    assert_eq!(rt; closing(&mut account), Err((37, true)));
    enter(&mut account, 5, 1)?;
    assert_eq!(rt; closing(&mut account), Err((37, true)));
    assert_eq!(rt; bill(&mut account, 5, 0), 5);
    assert_eq!(rt; closing(&mut account), Err((37, true)));
    assert_eq!(rt; read(&account), (1_200, 0, None, 9_999_999_999_996));
    Ok(())
}

#[test]
fn lines_start_again_after_a_closing(rt: HostRuntime) -> Result<(), Fail> {
    let mut account = used()?;
    assert_eq!(rt; entered_often(&mut account, 8, 5, 20), 0);
    assert_eq!(rt; closed(&mut account, 1), 0);
    let after = seen(&account);
    assert_eq!(rt; (after.ledger.months, after.ledger.filings), (4, 1));
    assert_eq!(rt; after.ledger.month, empty_month());
    assert_eq!(rt; (after.design, after.e.0), (Some(8_000), 5));
    enter(&mut account, 8, 7)?;
    let line = account.figures().ledger.month.costs[7];
    assert_eq!(rt; (line.count, line.total.0), (1, 7));
    Ok(())
}
