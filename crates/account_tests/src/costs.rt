//! Costs of the open month.
use crate::common::*;
use account::{Account, CostKind, CostLine, Refusal};
use designs::Flat;
use reconciliation::Cents;
use std::test::Fail;

/// What entering a cost told, 0 or the number of the refusal, and whether the account was then as before.
fn entered(account: &mut Account<Flat>, kind: u64, amount: i64) -> (u8, bool) {
    let before = seen(account);
    let answer = told(account.cost(kind, Cents(amount)));
    (answer, seen(account) == before)
}

fn line(count: u32, total: i64) -> CostLine {
    CostLine {
        count,
        total: Cents(total),
    }
}

/// The number of the kind that has this number, or of the refusal.
fn kind(number: u64) -> Result<u8, u8> {
    CostKind::try_from(number)
        .map(CostKind::number)
        .map_err(Refusal::number)
}

#[test]
fn kinds_are_numbered_from_1_to_8(rt: HostRuntime) {
    let known: [u8; 8] = [1, 2, 3, 4, 5, 6, 7, 8];
    for number in &known {
        assert_eq!(rt; kind(*number as u64), Ok(*number));
    }
    assert_eq!(rt; kind(0), Err(31));
    assert_eq!(rt; kind(9), Err(31));
    assert_eq!(rt; kind(257), Err(31));
    assert_eq!(rt; kind(u64::MAX), Err(31));
}

#[test]
fn only_known_kinds_are_entered(rt: HostRuntime) -> Result<(), Fail> {
    let mut account = used()?;
    assert_eq!(rt; entered(&mut account, 0, 5), (31, true));
    assert_eq!(rt; entered(&mut account, 1, 5), (0, false));
    assert_eq!(rt; entered(&mut account, 8, 5), (0, false));
    assert_eq!(rt; entered(&mut account, 9, 5), (31, true));
    assert_eq!(rt; entered(&mut account, 257, 5), (31, true));
    assert_eq!(rt; entered(&mut account, u64::MAX, 5), (31, true));
    assert_eq!(rt; entered(&mut account, 0, 100_000_000_001), (31, true));
    Ok(())
}

#[test]
fn amounts_have_their_edges(rt: HostRuntime) -> Result<(), Fail> {
    let mut account = used()?;
    assert_eq!(rt; entered(&mut account, 5, 0), (0, false));
    assert_eq!(rt; entered(&mut account, 5, 100_000_000_000), (0, false));
    assert_eq!(rt; entered(&mut account, 5, 100_000_000_001), (32, true));
    assert_eq!(rt; entered(&mut account, 5, -100_000_000_000), (0, false));
    assert_eq!(rt; entered(&mut account, 5, -100_000_000_001), (32, true));
    assert_eq!(rt; entered(&mut account, 5, i64::MAX), (32, true));
    assert_eq!(rt; entered(&mut account, 5, i64::MIN), (32, true));
    let entries = account.figures().ledger.month.costs[4];
    assert_eq!(rt; (entries.count, entries.total.0), (3, 0));
    Ok(())
}

#[test]
fn a_kind_takes_ten_thousand_entries(rt: HostRuntime) -> Result<(), Fail> {
    let mut account = used()?;
    assert_eq!(rt; entered_often(&mut account, 7, -3, 10_000), 0);
    assert_eq!(rt; entered(&mut account, 7, 1), (33, true));
    assert_eq!(rt; entered(&mut account, 7, 100_000_000_001), (32, true));
    assert_eq!(rt; entered(&mut account, 6, 1), (0, false));
    assert_eq!(rt; entered(&mut account, 8, 1), (0, false));
    let full = account.figures().ledger.month.costs[6];
    assert_eq!(rt; (full.count, full.total.0), (10_000, -30_000));
    assert_eq!(rt; closed(&mut account, 1), 0);
    assert_eq!(rt; entered(&mut account, 7, 1), (0, false));
    Ok(())
}

#[test]
fn every_line_holds_the_largest_costs(rt: HostRuntime) -> Result<(), Fail> {
    let mut account = opened(1, 10_000_000_000_000, [0; 3], plain(0)?)?;
    for kind in 1..=8 {
        assert_eq!(rt;
            entered_often(&mut account, kind, 100_000_000_000, 10_000),
            0
        );
    }
    let full = line(10_000, 1_000_000_000_000_000);
    let mut month = empty_month();
    month.costs = [full; 8];
    assert_eq!(rt; account.figures().ledger.month, month);
    assert_eq!(rt; read(&account), (0, 0, None, 8_010_000_000_000_000));
    Ok(())
}

/// Enters these costs as the kinds 1 to 8: 0, or the number of the refusal that stopped it.
fn entered_in_turn(account: &mut Account<Flat>, amounts: &[i64]) -> u8 {
    told(enter_in_turn(account, amounts))
}

fn enter_in_turn(account: &mut Account<Flat>, amounts: &[i64]) -> Result<(), Refusal> {
    for (place, amount) in amounts.iter().enumerate() {
        account.cost(place as u64 % 8 + 1, Cents(*amount))?;
    }
    Ok(())
}

#[test]
fn each_kind_has_its_own_line(rt: HostRuntime) -> Result<(), Fail> {
    let mut account = opened(1, 40, [590, 0, 0], plain(0)?)?;
    let amounts = [
        1,
        -20,
        300,
        -4_000,
        50_000,
        -600_000,
        7_000_000,
        -80_000_000,
    ];
    assert_eq!(rt; entered_in_turn(&mut account, &amounts), 0);
    assert_eq!(rt; entered_in_turn(&mut account, &[-2, 10, 1]), 0);
    let mut month = empty_month();
    month.costs = [
        line(2, -1),
        line(2, -10),
        line(2, 301),
        line(1, -4_000),
        line(1, 50_000),
        line(1, -600_000),
        line(1, 7_000_000),
        line(1, -80_000_000),
    ];
    assert_eq!(rt; account.figures().ledger.month, month);
    assert_eq!(rt; read(&account), (0, 0, None, -73_553_670));
    Ok(())
}
