//! Bills of the open month.
use crate::common::*;
use account::{Account, BillRefusal};
use designs::{Flat, Hour, Hourly, HourlyFigures, RateDesign};
use std::test::Fail;

/// The place of the hour that a bill is refused for.
fn place(refusal: BillRefusal) -> Option<usize> {
    match refusal {
        BillRefusal::OfPeriod(refusal) => refusal.hour(),
        BillRefusal::OfAccount(_) => None,
    }
}

/// Quantity and amount of a bill, or the refusal's number with the hour's place and whether the account was then as before.
fn billed<D: RateDesign>(
    account: &mut Account<D>,
    held: &[Hour],
    start: usize,
    count: usize,
) -> Result<(u64, i64), (u8, Option<usize>, bool)> {
    let before = seen(account);
    account
        .bill(held, start, count)
        .map(|bill| (bill.quantity, bill.amount.0))
        .map_err(|refusal| (refusal.number(), place(refusal), seen(account) == before))
}

/// Bills one hour of this energy at this price.
fn billed_hour<D: RateDesign>(
    account: &mut Account<D>,
    kwh: u64,
    price: i64,
) -> Result<(u64, i64), (u8, Option<usize>, bool)> {
    billed(account, &[hour(kwh, price)], 0, 1)
}

/// Count, quantity and total of the month's bills.
fn month<D>(account: &Account<D>) -> (u32, u64, i64) {
    let month = account.figures().ledger.month;
    (month.bills, month.quantity, month.billed.0)
}

/// An hourly design with no charge but the price of energy.
fn bare() -> Result<Hourly, Fail> {
    hourly(0, 10_000, 0, 0, 0)
}

fn hourly(oth: i64, loss: i64, cap: i64, adm: i64, unc: i64) -> Result<Hourly, Fail> {
    Ok(Hourly::new(HourlyFigures {
        oth,
        loss,
        cap,
        adm,
        unc,
    })?)
}

#[test]
fn counts_and_the_last_hour(rt: HostRuntime) -> Result<(), Fail> {
    let mut account = used()?;
    let held = [hour(1, 0); 841];
    assert_eq!(rt; billed(&mut account, &held, 0, 0), Err((11, None, true)));
    assert_eq!(rt; billed(&mut account, &held, 0, 1), Ok((1, 9)));
    assert_eq!(rt; billed(&mut account, &held, 0, 840), Ok((840, 7_146)));
    assert_eq!(rt; billed(&mut account, &held, 0, 841), Err((11, None, true)));
    assert_eq!(rt; billed(&mut account, &held, 1, 840), Ok((840, 7_146)));
    assert_eq!(rt; billed(&mut account, &held, 2, 840), Err((12, None, true)));
    assert_eq!(rt; billed(&mut account, &held, 840, 1), Ok((1, 9)));
    assert_eq!(rt; billed(&mut account, &held, 841, 1), Err((12, None, true)));
    assert_eq!(rt;
        billed(&mut account, &held, usize::MAX, 1),
        Err((12, None, true))
    );
    assert_eq!(rt;
        billed(&mut account, &held, usize::MAX, usize::MAX),
        Err((11, None, true))
    );
    Ok(())
}

#[test]
fn ranges_of_an_hour(rt: HostRuntime) -> Result<(), Fail> {
    let mut account = used()?;
    assert_eq!(rt; billed_hour(&mut account, 0, -100_000), Ok((0, 0)));
    assert_eq!(rt;
        billed_hour(&mut account, 100_000, 400_000),
        Ok((100_000, 850_700))
    );
    let energy = Err((13, Some(0), true));
    let price = Err((14, Some(0), true));
    assert_eq!(rt; billed_hour(&mut account, 100_001, 0), energy);
    assert_eq!(rt; billed_hour(&mut account, u64::MAX, 0), energy);
    assert_eq!(rt; billed_hour(&mut account, 0, -100_001), price);
    assert_eq!(rt; billed_hour(&mut account, 0, 400_001), price);
    assert_eq!(rt; billed_hour(&mut account, 0, i64::MIN), price);
    assert_eq!(rt; billed_hour(&mut account, 100_001, 400_001), energy);
    Ok(())
}

#[test]
fn the_first_bad_hour_is_told_by_its_place(rt: HostRuntime) -> Result<(), Fail> {
    let mut account = used()?;
    let held = [
        hour(100_001, 0),
        hour(1, 0),
        hour(1, -5),
        hour(3, 400_001),
        hour(100_001, 0),
        hour(4, 7),
    ];
    assert_eq!(rt; billed(&mut account, &held, 0, 6), Err((13, Some(0), true)));
    assert_eq!(rt; billed(&mut account, &held, 1, 2), Ok((2, 17)));
    assert_eq!(rt; billed(&mut account, &held, 1, 5), Err((14, Some(2), true)));
    assert_eq!(rt; billed(&mut account, &held, 2, 3), Err((14, Some(1), true)));
    assert_eq!(rt; billed(&mut account, &held, 4, 2), Err((13, Some(0), true)));
    assert_eq!(rt; billed(&mut account, &held, 4, 3), Err((12, None, true)));
    Ok(())
}

#[test]
fn the_part_that_begins_at_the_start_is_billed(rt: HostRuntime) -> Result<(), Fail> {
    let mut account = opened(1, 0, [0; 3], plain(1_000)?)?;
    let held = [hour(10, 0), hour(20, 0), hour(30, 0), hour(40, 0)];
    assert_eq!(rt; billed(&mut account, &held, 0, 2), Ok((30, 30)));
    assert_eq!(rt; billed(&mut account, &held, 1, 2), Ok((50, 50)));
    assert_eq!(rt; billed(&mut account, &held, 3, 1), Ok((40, 40)));
    assert_eq!(rt; billed(&mut account, &held, 0, 4), Ok((100, 100)));
    assert_eq!(rt; month(&account), (4, 220, 220));
    assert_eq!(rt; read(&account), (0, 0, None, -220));
    Ok(())
}

#[test]
fn flat_bills_add_up(rt: HostRuntime) -> Result<(), Fail> {
    let design = flat(6_453, 10_515, 21, 339)?;
    let mut account = opened(1, 0, [590, 0, 0], design)?;
    assert_eq!(rt; month(&account), (0, 0, 0));
    assert_eq!(rt; billed_hour(&mut account, 1, 0), Ok((1, 8)));
    assert_eq!(rt; billed_hour(&mut account, 2, 0), Ok((2, 15)));
    assert_eq!(rt; billed_hour(&mut account, 66, 0), Ok((66, 501)));
    assert_eq!(rt; billed_hour(&mut account, 67, 0), Ok((67, 509)));
    assert_eq!(rt; month(&account), (4, 136, 1_033));
    assert_eq!(rt; billed_hour(&mut account, 12_345, 0), Ok((12_345, 93_736)));
    assert_eq!(rt; billed_hour(&mut account, 0, 0), Ok((0, 0)));
    assert_eq!(rt; month(&account), (6, 12_481, 94_769));
    Ok(())
}

/// An account of this balance at T 590 that has taken E of the balance over this sum into force, with PTC_Current 7,145.
fn in_force(balance: i64, sum: u64) -> Result<Account<Flat>, Fail> {
    let design = plain(7_145)?;
    let mut account = opened(1, balance, [590, 0, 0], design)?;
    let filing = filed(&mut account, sum).map_err(refused)?;
    let _ = closed(&mut account, 2);
    let _ = forced(&mut account, filing, design);
    Ok(account)
}

#[test]
fn bills_are_worked_at_e_in_force(rt: HostRuntime) -> Result<(), Fail> {
    let mut account = in_force(-1_040_356_537, 869_231_895)?;
    assert_eq!(rt; read(&account), (2, -1_197, None, -1_040_356_537));
    assert_eq!(rt; billed_hour(&mut account, 1_000, 0), Ok((1_000, 6_321)));
    assert_eq!(rt; billed_hour(&mut account, 7, 0), Ok((7, 44)));
    assert_eq!(rt; month(&account), (2, 1_007, 6_365));
    Ok(())
}

#[test]
fn a_strongly_negative_e_makes_negative_bills(rt: HostRuntime) -> Result<(), Fail> {
    let mut account = in_force(-1_000, 10)?;
    assert_eq!(rt; read(&account), (2, -100_000, None, -1_000));
    assert_eq!(rt; billed_hour(&mut account, 3, 0), Ok((3, -296)));
    assert_eq!(rt; billed_hour(&mut account, 1, 0), Ok((1, -99)));
    assert_eq!(rt; month(&account), (2, 4, -395));
    Ok(())
}

#[test]
fn hourly_bills_follow_the_prices(rt: HostRuntime) -> Result<(), Fail> {
    let mut account = opened(1, 0, [0; 3], bare()?)?;
    let held = [hour(10, -5_000), hour(3, 700), hour(1, 500)];
    assert_eq!(rt; billed(&mut account, &held, 0, 3), Ok((14, -47)));
    assert_eq!(rt; billed(&mut account, &held, 1, 2), Ok((4, 3)));
    assert_eq!(rt; billed_hour(&mut account, 1, -500), Ok((1, -1)));
    assert_eq!(rt; billed_hour(&mut account, 1, -499), Ok((1, 0)));
    assert_eq!(rt; month(&account), (4, 20, -45));
    assert_eq!(rt; read(&account), (0, 0, None, 45));
    Ok(())
}

#[test]
fn hourly_bills_with_every_charge(rt: HostRuntime) -> Result<(), Fail> {
    let design = hourly(400, 10_171, 3_050, 8, 15)?;
    let mut account = opened(1, 0, [440, 0, 0], design)?;
    let held = [hour(1_000, 3_000), hour(2_000, -500), hour(0, 400_000)];
    assert_eq!(rt; billed(&mut account, &held, 0, 3), Ok((3_000, 13_211)));
    assert_eq!(rt; billed(&mut account, &held, 1, 2), Ok((2_000, 6_325)));
    assert_eq!(rt; billed(&mut account, &held, 2, 1), Ok((0, 0)));
    assert_eq!(rt; billed(&mut account, &held, 3, 1), Err((12, None, true)));
    assert_eq!(rt; month(&account), (3, 5_000, 19_536));
    Ok(())
}

/// Bills one hour of 1 kWh this many times: 0, or the number of the refusal that stopped it.
fn billed_often(account: &mut Account<Flat>, times: u32) -> u8 {
    bill_often(account, times)
        .map_err(BillRefusal::number)
        .err()
        .unwrap_or(0)
}

fn bill_often(account: &mut Account<Flat>, times: u32) -> Result<(), BillRefusal> {
    let held = [hour(1, 0)];
    for _ in 0..times {
        account.bill(&held, 0, 1)?;
    }
    Ok(())
}

#[test]
fn a_month_takes_a_million_bills(rt: HostRuntime) -> Result<(), Fail> {
    let mut account = opened(1, 0, [0; 3], plain(3_000)?)?;
    assert_eq!(rt; billed_often(&mut account, 1_000_000), 0);
    assert_eq!(rt; month(&account), (1_000_000, 1_000_000, 3_000_000));
    assert_eq!(rt; billed_hour(&mut account, 1, 0), Err((34, None, true)));
    assert_eq!(rt; billed_hour(&mut account, 0, 0), Err((34, None, true)));
    assert_eq!(rt;
        billed_hour(&mut account, 100_001, 0),
        Err((13, Some(0), true))
    );
    assert_eq!(rt; closed(&mut account, 1), 0);
    assert_eq!(rt; billed_hour(&mut account, 1, 0), Ok((1, 3)));
    assert_eq!(rt; month(&account), (1, 1, 3));
    Ok(())
}

#[test]
fn a_full_month_is_told_before_a_large_bill(rt: HostRuntime) -> Result<(), Fail> {
    let mut account = opened(1, 0, [0; 3], plain(100_000)?)?;
    let held = [hour(100_000, 0); 101];
    assert_eq!(rt; billed(&mut account, &held, 0, 101), Err((35, None, true)));
    assert_eq!(rt; billed_often(&mut account, 1_000_000), 0);
    assert_eq!(rt; billed(&mut account, &held, 0, 101), Err((34, None, true)));
    Ok(())
}

#[test]
fn large_hourly_bills_are_refused(rt: HostRuntime) -> Result<(), Fail> {
    let mut account = opened(1, 0, [0; 3], bare()?)?;
    let most = [hour(100_000, 400_000); 840];
    assert_eq!(rt; billed(&mut account, &most, 0, 840), Err((35, None, true)));
    let mut held = [hour(100_000, 400_000); 26];
    assert_eq!(rt;
        billed(&mut account, &held, 0, 25),
        Ok((2_500_000, 1_000_000_000))
    );
    held[25] = hour(1, 499);
    assert_eq!(rt;
        billed(&mut account, &held, 0, 26),
        Ok((2_500_001, 1_000_000_000))
    );
    held[25] = hour(1, 500);
    assert_eq!(rt; billed(&mut account, &held, 0, 26), Err((35, None, true)));
    assert_eq!(rt; month(&account), (2, 5_000_001, 2_000_000_000));
    Ok(())
}

#[test]
fn strongly_negative_hourly_bills_are_refused(rt: HostRuntime) -> Result<(), Fail> {
    let mut account = opened(1, 0, [0; 3], bare()?)?;
    let mut held = [hour(100_000, -100_000); 101];
    assert_eq!(rt; billed(&mut account, &held, 0, 101), Err((35, None, true)));
    held[100] = hour(1, -499);
    assert_eq!(rt;
        billed(&mut account, &held, 0, 101),
        Ok((10_000_001, -1_000_000_000))
    );
    held[100] = hour(1, -500);
    assert_eq!(rt; billed(&mut account, &held, 0, 101), Err((35, None, true)));
    assert_eq!(rt; month(&account), (1, 10_000_001, -1_000_000_000));
    Ok(())
}

#[test]
fn large_flat_bills_are_refused(rt: HostRuntime) -> Result<(), Fail> {
    let mut held = [hour(100_000, 0); 100];
    held[99] = hour(64_427, 0);
    let mut account = opened(1, 0, [0; 3], flat(100_000, 10_000, 357, 0)?)?;
    assert_eq!(rt;
        billed(&mut account, &held, 0, 100),
        Ok((9_964_427, 1_000_000_000))
    );
    held[99] = hour(85_521, 0);
    let mut account = opened(1, 0, [0; 3], flat(100_000, 10_000, 145, 0)?)?;
    assert_eq!(rt; billed(&mut account, &held, 0, 100), Err((35, None, true)));
    Ok(())
}
