//! Costs and bills in any order: the same answers and figures.
use crate::common::*;
use account::{Account, BillRefusal, Closing, Refusal};
use designs::Flat;
use reconciliation::Cents;
use std::process::Abort;
use std::test::Fail;

/// A cost or a bill of the open month.
#[derive(Clone, Copy)]
enum Entry {
    Cost(u64, i64),
    Bill(u64),
}

/// Makes an entry: the bill, 0 for a cost, or the number of the refusal.
fn made(account: &mut Account<Flat>, entry: Entry) -> Result<i64, u8> {
    match entry {
        Entry::Cost(kind, amount) => {
            account.cost(kind, Cents(amount)).map_err(Refusal::number)?;
            Ok(0)
        }
        Entry::Bill(kwh) => {
            let bill = account
                .bill(&[hour(kwh, 0)], 0, 1)
                .map_err(BillRefusal::number)?;
            Ok(bill.amount.0)
        }
    }
}

/// Makes entries in the order listed: how many were refused.
fn made_all(account: &mut Account<Flat>, entries: &[Entry]) -> u32 {
    // A `for`: each entry changes the account.
    let mut refused: u32 = 0;
    for entry in entries {
        if made(account, *entry).is_err() {
            refused = refused.saturating_add(1);
        }
    }
    refused
}

/// An account with these entries in its first month.
fn after(rt: &impl Abort, entries: &[Entry], refused: u32) -> Result<Account<Flat>, Fail> {
    let design = flat(6_453, 10_515, 21, 339)?;
    let mut account = opened(7, -250_000, [590, 600, 800], design)?;
    assert_eq!(rt; made_all(&mut account, entries), refused);
    Ok(account)
}

/// Six entries with the costs first.
fn costs_first() -> [Entry; 6] {
    [
        Entry::Cost(2, 500_000),
        Entry::Cost(8, -1_234),
        Entry::Cost(2, 77),
        Entry::Bill(1_000),
        Entry::Bill(12_345),
        Entry::Bill(66),
    ]
}

/// The same entries with the bills first, in another order.
fn bills_first() -> [Entry; 6] {
    [
        Entry::Bill(66),
        Entry::Bill(1_000),
        Entry::Bill(12_345),
        Entry::Cost(2, 77),
        Entry::Cost(8, -1_234),
        Entry::Cost(2, 500_000),
    ]
}

/// The same entries mixed.
fn mixed() -> [Entry; 6] {
    [
        Entry::Bill(12_345),
        Entry::Cost(2, 77),
        Entry::Cost(2, 500_000),
        Entry::Bill(66),
        Entry::Cost(8, -1_234),
        Entry::Bill(1_000),
    ]
}

/// The same entries among five that are refused.
fn mixed_with_refused() -> [Entry; 11] {
    [
        Entry::Cost(9, 1),
        Entry::Bill(12_345),
        Entry::Cost(2, 77),
        Entry::Bill(100_001),
        Entry::Cost(2, 500_000),
        Entry::Cost(2, 100_000_000_001),
        Entry::Bill(66),
        Entry::Cost(0, 0),
        Entry::Cost(8, -1_234),
        Entry::Bill(1_000),
        Entry::Cost(8, -100_000_000_001),
    ]
}

/// What the rest of a quarter tells: three closings, the next filing's number and E, and E taken into force.
#[derive(Clone, Copy, PartialEq, Eq, Debug)]
struct Rest {
    closings: [Result<Closing, u8>; 3],
    filing: Result<(u32, i64), u8>,
    force: Result<i64, Back>,
}

fn closing(account: &mut Account<Flat>) -> Result<Closing, u8> {
    account.close().map_err(Refusal::number)
}

/// Closes three months, files over the sum 300,000, closes two months and takes the filing into force with PTC_Current 6,000.
fn ran_on(account: &mut Account<Flat>) -> Result<Rest, Fail> {
    let design = plain(6_000)?;
    let closings = [closing(account), closing(account), closing(account)];
    let filing = filed(account, 300_000).map_err(refused)?;
    let told = (filing.number(), filing.e().0);
    let _ = closed(account, 2);
    Ok(Rest {
        closings,
        filing: Ok(told),
        force: forced(account, filing, design),
    })
}

#[test]
fn entries_of_a_month_commute(rt: HostRuntime) -> Result<(), Fail> {
    let first = after(&rt, &costs_first(), 0)?;
    let expected = seen(&first);
    assert_eq!(rt; read(&first), (0, 0, None, 153_021));
    assert_eq!(rt; seen(&after(&rt, &bills_first(), 0)?), expected);
    assert_eq!(rt; seen(&after(&rt, &mixed(), 0)?), expected);
    assert_eq!(rt; seen(&after(&rt, &mixed_with_refused(), 5)?), expected);
    Ok(())
}

#[test]
fn the_figures_of_that_month(rt: HostRuntime) -> Result<(), Fail> {
    let month = after(&rt, &mixed(), 0)?.figures().ledger.month;
    assert_eq!(rt;
        (month.costs[1].count, month.costs[1].total.0),
        (2, 500_077)
    );
    assert_eq!(rt; (month.costs[7].count, month.costs[7].total.0), (1, -1_234));
    assert_eq!(rt; month.bills, 3);
    assert_eq!(rt; (month.quantity, month.billed.0), (13_411, 101_830));
    Ok(())
}

#[test]
fn each_entry_tells_the_same_in_either_order(rt: HostRuntime) -> Result<(), Fail> {
    let mut one = after(&rt, &[], 0)?;
    let mut other = after(&rt, &costs_first(), 0)?;
    assert_eq!(rt; made(&mut one, Entry::Bill(1_000)), Ok(7_593));
    assert_eq!(rt; made(&mut other, Entry::Bill(1_000)), Ok(7_593));
    assert_eq!(rt; made(&mut one, Entry::Bill(100_001)), Err(13));
    assert_eq!(rt; made(&mut other, Entry::Bill(100_001)), Err(13));
    assert_eq!(rt; made(&mut one, Entry::Cost(9, 5)), Err(31));
    assert_eq!(rt; made(&mut other, Entry::Cost(9, 5)), Err(31));
    assert_eq!(rt; made(&mut one, Entry::Cost(8, 5)), Ok(0));
    assert_eq!(rt; made(&mut other, Entry::Cost(8, 5)), Ok(0));
    Ok(())
}

#[test]
fn the_quarter_after_goes_alike(rt: HostRuntime) -> Result<(), Fail> {
    let mut one = after(&rt, &costs_first(), 0)?;
    let mut other = after(&rt, &mixed_with_refused(), 5)?;
    let told = ran_on(&mut one)?;
    assert_eq!(rt; ran_on(&mut other)?, told);
    assert_eq!(rt; seen(&other), seen(&one));
    assert_eq!(rt; told.filing, Ok((1, 514)));
    assert_eq!(rt; told.force, Ok(514));
    assert_eq!(rt;
        told.closings[0],
        Ok(Closing {
            months: 1,
            tax: Cents(6_008),
            net: Cents(95_822),
            charge: Cents(-323),
            balance: Cents(152_698),
        })
    );
    assert_eq!(rt; read(&one), (5, 514, None, 155_774));
    Ok(())
}

#[test]
fn the_month_under_the_new_rate_goes_alike(rt: HostRuntime) -> Result<(), Fail> {
    let mut one = after(&rt, &bills_first(), 0)?;
    let mut other = after(&rt, &mixed(), 0)?;
    assert_eq!(rt; ran_on(&mut one)?, ran_on(&mut other)?);
    let late = [
        Entry::Bill(500),
        Entry::Cost(4, -900),
        Entry::Bill(7),
        Entry::Cost(1, 40),
    ];
    let turned = [
        Entry::Cost(1, 40),
        Entry::Cost(4, -900),
        Entry::Bill(7),
        Entry::Bill(500),
    ];
    assert_eq!(rt; made_all(&mut one, &late), 0);
    assert_eq!(rt; made_all(&mut other, &turned), 0);
    assert_eq!(rt; seen(&other), seen(&one));
    let told = closing(&mut one);
    assert_eq!(rt; closing(&mut other), told);
    assert_eq!(rt;
        told,
        Ok(Closing {
            months: 6,
            tax: Cents(207),
            net: Cents(3_302),
            charge: Cents(768),
            balance: Cents(152_380),
        })
    );
    assert_eq!(rt; seen(&other), seen(&one));
    Ok(())
}
