//! Openings: their ranges, and what they write.
use crate::common::*;
use account::Account;
use designs::Flat;
use std::test::Fail;

/// What an opening of this account told, 0 or the number of the refusal, and whether the account was then as before.
fn tried(
    account: &mut Account<Flat>,
    number: u64,
    balance: i64,
    rates: [i64; 3],
) -> Result<(u8, bool), Fail> {
    let design = plain(500)?;
    let before = seen(account);
    let answer = told(account.open(opening(number, balance, rates, design)));
    Ok((answer, seen(account) == before))
}

/// Tries an opening of an account that was used.
fn reopened(number: u64, balance: i64, rates: [i64; 3]) -> Result<(u8, bool), Fail> {
    tried(&mut used()?, number, balance, rates)
}

#[test]
fn tax_has_its_edges(rt: HostRuntime) -> Result<(), Fail> {
    assert_eq!(rt; reopened(1, 0, [-1, 0, 0])?, (22, true));
    assert_eq!(rt; reopened(1, 0, [0, 0, 0])?, (0, false));
    assert_eq!(rt; reopened(1, 0, [2_000, 0, 0])?, (0, false));
    assert_eq!(rt; reopened(1, 0, [2_001, 0, 0])?, (22, true));
    assert_eq!(rt; reopened(1, 0, [i64::MIN, 0, 0])?, (22, true));
    assert_eq!(rt; reopened(1, 0, [i64::MAX, 0, 0])?, (22, true));
    Ok(())
}

#[test]
fn interest_rates_have_their_edges(rt: HostRuntime) -> Result<(), Fail> {
    assert_eq!(rt; reopened(1, 0, [0, -1, 0])?, (22, true));
    assert_eq!(rt; reopened(1, 0, [0, 2_400, 0])?, (0, false));
    assert_eq!(rt; reopened(1, 0, [0, 2_401, 0])?, (22, true));
    assert_eq!(rt; reopened(1, 0, [0, 0, -1])?, (22, true));
    assert_eq!(rt; reopened(1, 0, [0, 0, 2_400])?, (0, false));
    assert_eq!(rt; reopened(1, 0, [0, 0, 2_401])?, (22, true));
    assert_eq!(rt; reopened(1, 0, [2_000, 2_400, 2_400])?, (0, false));
    Ok(())
}

#[test]
fn numbers_have_their_edges(rt: HostRuntime) -> Result<(), Fail> {
    assert_eq!(rt; reopened(0, 0, [0; 3])?, (0, false));
    assert_eq!(rt; reopened(4_294_967_295, 0, [0; 3])?, (0, false));
    assert_eq!(rt; reopened(4_294_967_296, 0, [0; 3])?, (23, true));
    assert_eq!(rt; reopened(u64::MAX, 0, [0; 3])?, (23, true));
    Ok(())
}

#[test]
fn balances_have_their_edges(rt: HostRuntime) -> Result<(), Fail> {
    assert_eq!(rt; reopened(1, 10_000_000_000_000, [0; 3])?, (0, false));
    assert_eq!(rt; reopened(1, -10_000_000_000_000, [0; 3])?, (0, false));
    assert_eq!(rt; reopened(1, 10_000_000_000_001, [0; 3])?, (23, true));
    assert_eq!(rt; reopened(1, -10_000_000_000_001, [0; 3])?, (23, true));
    assert_eq!(rt; reopened(1, i64::MAX, [0; 3])?, (23, true));
    assert_eq!(rt; reopened(1, i64::MIN, [0; 3])?, (23, true));
    Ok(())
}

#[test]
fn rates_are_told_before_number_and_balance(rt: HostRuntime) -> Result<(), Fail> {
    assert_eq!(rt; reopened(4_294_967_296, 0, [2_001, 0, 0])?, (22, true));
    assert_eq!(rt; reopened(4_294_967_296, 0, [0, 2_401, 0])?, (22, true));
    assert_eq!(rt; reopened(1, i64::MIN, [0, 0, -1])?, (22, true));
    Ok(())
}

#[test]
fn the_used_account_is_used_in_every_part(rt: HostRuntime) -> Result<(), Fail> {
    let view = seen(&used()?);
    assert_eq!(rt; (view.terms.account, view.terms.tax), (9, 590));
    assert_eq!(rt; (view.design, view.e.0), (Some(8_000), 5));
    assert_eq!(rt; (view.ledger.last.0, view.ledger.months), (5_075, 3));
    assert_eq!(rt; view.ledger.filings, 1);
    let month = view.ledger.month;
    assert_eq!(rt; (month.costs[1].count, month.costs[1].total.0), (1, 12_345));
    assert_eq!(rt; (month.bills, month.quantity, month.billed.0), (1, 10, 85));
    Ok(())
}

#[test]
fn an_opening_writes_a_used_account_whole(rt: HostRuntime) -> Result<(), Fail> {
    let mut account = used()?;
    assert_eq!(rt; tried(&mut account, 11, -77, [0, 2_400, 1])?, (0, false));
    assert_eq!(rt; seen(&account), fresh(11, -77, [0, 2_400, 1], 500));
    assert_eq!(rt; read(&account), (0, 0, None, -77));
    Ok(())
}

#[test]
fn an_opened_account_starts_at_nothing(rt: HostRuntime) -> Result<(), Fail> {
    let design = flat(6_453, 10_515, 21, 339)?;
    let account = opened(4_294_967_295, 250, [590, 600, 800], design)?;
    let first = fresh(4_294_967_295, 250, [590, 600, 800], 7_145);
    assert_eq!(rt; seen(&account), first);
    assert_eq!(rt; design.ptc_current().0, 7_145);
    assert_eq!(rt; account.figures().rate.design.ptc_current().0, 7_145);
    assert_eq!(rt; read(&account), (0, 0, None, 250));
    let unopened = Account::unopened(design);
    assert_eq!(rt; seen(&unopened), fresh(0, 0, [0; 3], 7_145));
    Ok(())
}

/// Tries an opening of an account with a filing pending, and then to withdraw the filing.
fn opened_under_a_filing(rates: [i64; 3]) -> Result<((u8, bool), Result<u32, u8>), Fail> {
    let design = plain(500)?;
    let mut account = used()?;
    let filing = filed(&mut account, 1_000).map_err(refused)?;
    let before = seen(&account);
    let answer = told(account.open(opening(9, 0, rates, design)));
    let kept = seen(&account) == before;
    Ok(((answer, kept), withdrawn(&mut account, filing)))
}

#[test]
fn a_pending_filing_outlives_only_a_refused_opening(rt: HostRuntime) -> Result<(), Fail> {
    assert_eq!(rt; opened_under_a_filing([-1, 0, 0])?, ((22, true), Ok(2)));
    assert_eq!(rt; opened_under_a_filing([0, 0, 0])?, ((0, false), Err(43)));
    Ok(())
}
