//! Drafts and filings: their ranges, their calendar, and what they change.
use crate::common::*;
use account::{Account, Draft, Filing, Pending, Refusal};
use designs::Flat;
use reconciliation::{Cents, RateUnits};
use std::process::Abort;
use std::test::Fail;

/// The sum of a draft of these projections, or the number of the refusal.
fn drafted(first: u64, second: u64, third: u64) -> Result<u64, u8> {
    let draft = Draft::new(first, second, third).map_err(Refusal::number)?;
    Ok(draft.sum().units())
}

/// What amending a draft of the sum 7 told, 0 or the number of the refusal, and the sum that it then had.
fn amended(first: u64, second: u64, third: u64) -> Result<(u8, u64), Fail> {
    let mut draft = Draft::new(1, 2, 4)?;
    let answer = told(draft.amend(first, second, third));
    Ok((answer, draft.sum().units()))
}

/// What a filing told, its number and E, once it is withdrawn again; or the refusal's number with the sum of the draft handed back
/// and whether the account was then as before.
fn tried(account: &mut Account<Flat>, sum: u64) -> Result<(u32, i64), (u8, u64, bool)> {
    let draft = Draft::new(sum, 0, 0).map_err(|refusal| (refusal.number(), 0, true))?;
    let before = seen(account);
    let filing = account.file(draft).map_err(|(draft, refusal)| {
        let kept = seen(account) == before;
        (refusal.number(), draft.sum().units(), kept)
    })?;
    let told = (filing.number(), filing.e().0);
    let _ = account.withdraw(filing);
    Ok(told)
}

/// An account of this balance, without tax and interest.
fn held(number: u64, balance: i64) -> Result<Account<Flat>, Fail> {
    opened(number, balance, [0; 3], plain(1_000)?)
}

/// What a filing over this sum told, in an account of this balance.
fn filed_of(balance: i64, sum: u64) -> Result<Result<(u32, i64), (u8, u64, bool)>, Fail> {
    Ok(tried(&mut held(1, balance)?, sum))
}

/// What a filing told after this many closings, in an account of balance 25.00 over the sum 1,000.
fn filed_at(rt: &impl Abort, months: u32) -> Result<Result<(u32, i64), (u8, u64, bool)>, Fail> {
    let mut account = held(1, 2_500)?;
    assert_eq!(rt; closed(&mut account, months), 0);
    Ok(tried(&mut account, 1_000))
}

#[test]
fn projections_have_their_edges(rt: HostRuntime) {
    let most = 1_000_000_000_000;
    assert_eq!(rt; drafted(most, most, most), Ok(3_000_000_000_000));
    assert_eq!(rt; drafted(most + 1, 0, 0), Err(24));
    assert_eq!(rt; drafted(0, most + 1, 0), Err(24));
    assert_eq!(rt; drafted(0, 0, most + 1), Err(24));
    assert_eq!(rt; drafted(u64::MAX, u64::MAX, 2), Err(24));
    assert_eq!(rt; drafted(0, 0, 0), Err(24));
    assert_eq!(rt; drafted(0, 0, 1), Ok(1));
    assert_eq!(rt; drafted(0, 1, 0), Ok(1));
    assert_eq!(rt; drafted(1, 0, 0), Ok(1));
    assert_eq!(rt; drafted(100, 20, 3), Ok(123));
}

#[test]
fn a_refused_amendment_keeps_the_sum(rt: HostRuntime) -> Result<(), Fail> {
    assert_eq!(rt; amended(10, 20, 30)?, (0, 60));
    assert_eq!(rt; amended(0, 0, 1)?, (0, 1));
    assert_eq!(rt; amended(0, 0, 0)?, (24, 7));
    assert_eq!(rt; amended(1_000_000_000_001, 0, 0)?, (24, 7));
    assert_eq!(rt; amended(0, 1_000_000_000_001, 0)?, (24, 7));
    assert_eq!(rt; amended(0, 0, 1_000_000_000_001)?, (24, 7));
    assert_eq!(rt; amended(1_000_000_000_000, 0, 0)?, (0, 1_000_000_000_000));
    Ok(())
}

#[test]
fn filings_are_made_at_whole_quarters(rt: HostRuntime) -> Result<(), Fail> {
    assert_eq!(rt; filed_at(&rt, 0)?, Ok((1, 2_500)));
    assert_eq!(rt; filed_at(&rt, 1)?, Err((41, 1_000, true)));
    assert_eq!(rt; filed_at(&rt, 2)?, Err((41, 1_000, true)));
    assert_eq!(rt; filed_at(&rt, 3)?, Ok((1, 2_500)));
    assert_eq!(rt; filed_at(&rt, 4)?, Err((41, 1_000, true)));
    assert_eq!(rt; filed_at(&rt, 1_199)?, Err((41, 1_000, true)));
    assert_eq!(rt; filed_at(&rt, 1_200)?, Ok((1, 2_500)));
    Ok(())
}

#[test]
fn e_is_the_balance_over_the_sum(rt: HostRuntime) -> Result<(), Fail> {
    assert_eq!(rt; filed_of(-1_040_356_537, 869_231_895)?, Ok((1, -1_197)));
    assert_eq!(rt; filed_of(1, 2_000)?, Ok((1, 1)));
    assert_eq!(rt; filed_of(-1, 2_000)?, Ok((1, -1)));
    assert_eq!(rt; filed_of(1, 2_001)?, Ok((1, 0)));
    assert_eq!(rt; filed_of(-1, 2_001)?, Ok((1, 0)));
    assert_eq!(rt; filed_of(0, 1)?, Ok((1, 0)));
    assert_eq!(rt;
        filed_of(10_000_000_000_000, 1_000_000_000_000)?,
        Ok((1, 10_000))
    );
    Ok(())
}

#[test]
fn e_has_its_edges(rt: HostRuntime) -> Result<(), Fail> {
    assert_eq!(rt; filed_of(100_000, 1_000)?, Ok((1, 100_000)));
    assert_eq!(rt; filed_of(-100_000, 1_000)?, Ok((1, -100_000)));
    assert_eq!(rt; filed_of(100_001, 1_000)?, Err((25, 1_000, true)));
    assert_eq!(rt; filed_of(-100_001, 1_000)?, Err((25, 1_000, true)));
    assert_eq!(rt; filed_of(200_000_999, 2_000_000)?, Ok((1, 100_000)));
    assert_eq!(rt; filed_of(-200_000_999, 2_000_000)?, Ok((1, -100_000)));
    assert_eq!(rt; filed_of(200_001, 2_000)?, Err((25, 2_000, true)));
    assert_eq!(rt; filed_of(-200_001, 2_000)?, Err((25, 2_000, true)));
    assert_eq!(rt; filed_of(10_000_000_000_000, 1)?, Err((25, 1, true)));
    Ok(())
}

#[test]
fn a_refused_filing_takes_no_number(rt: HostRuntime) -> Result<(), Fail> {
    let mut account = held(1, 2_500)?;
    assert_eq!(rt; tried(&mut account, 1), Err((25, 1, true)));
    assert_eq!(rt; tried(&mut account, 1_000), Ok((1, 2_500)));
    assert_eq!(rt; tried(&mut account, 2_000), Ok((2, 1_250)));
    assert_eq!(rt; account.figures().ledger.filings, 2);
    Ok(())
}

#[test]
fn e_is_of_the_last_balance_and_not_of_the_balance_now(rt: HostRuntime) -> Result<(), Fail> {
    let mut account = held(1, 1_000)?;
    account.cost(1, Cents(500))?;
    assert_eq!(rt; read(&account), (0, 0, None, 1_500));
    assert_eq!(rt; tried(&mut account, 1_000), Ok((1, 1_000)));
    assert_eq!(rt; closed(&mut account, 3), 0);
    assert_eq!(rt; tried(&mut account, 1_000), Ok((2, 1_500)));
    Ok(())
}

/// What is seen before a filing over the sum 500, while it pends, and after its withdrawal, with what the withdrawal told.
fn watched(account: &mut Account<Flat>) -> Result<([View; 3], Result<u32, u8>), Fail> {
    let before = seen(account);
    let filing = filed(account, 500).map_err(refused)?;
    let pending = seen(account);
    let answer = withdrawn(account, filing);
    Ok(([before, pending, seen(account)], answer))
}

#[test]
fn a_filing_pends_until_it_is_withdrawn(rt: HostRuntime) -> Result<(), Fail> {
    let mut account = used()?;
    let (views, answer) = watched(&mut account)?;
    let [before, pending, after] = views;
    assert_eq!(rt; answer, Ok(2));
    let mut expected = before;
    expected.ledger.filings = 2;
    assert_eq!(rt; after, expected);
    expected.pending = Some(Pending {
        number: 2,
        e: RateUnits(10_150),
        balance: Cents(5_075),
        months: 3,
    });
    assert_eq!(rt; pending, expected);
    Ok(())
}

/// Files over the sum 1,000, closes this many months and files over another sum: what the second filing told, and what then the
/// withdrawal of the first told.
fn filed_twice(
    months: u32,
    sum: u64,
) -> Result<(Result<(u32, i64), (u8, u64, bool)>, Result<u32, u8>), Fail> {
    let mut account = held(1, 1_000)?;
    let first = filed(&mut account, 1_000).map_err(refused)?;
    let _ = closed(&mut account, months);
    let second = tried(&mut account, sum);
    Ok((second, withdrawn(&mut account, first)))
}

#[test]
fn one_filing_pends_until_it_lapses(rt: HostRuntime) -> Result<(), Fail> {
    assert_eq!(rt; filed_twice(0, 500)?, (Err((42, 500, true)), Ok(1)));
    assert_eq!(rt; filed_twice(1, 500)?, (Err((41, 500, true)), Ok(1)));
    assert_eq!(rt; filed_twice(2, 500)?, (Err((41, 500, true)), Ok(1)));
    assert_eq!(rt; filed_twice(3, 500)?, (Ok((2, 2_000)), Err(43)));
    assert_eq!(rt; filed_twice(4, 500)?, (Err((41, 500, true)), Ok(1)));
    assert_eq!(rt; filed_twice(6, 500)?, (Ok((2, 2_000)), Err(43)));
    Ok(())
}

/// What the second of two filings told, over the sum 1, at which E is too large.
fn filed_too_large(months: u32) -> Result<Result<(u32, i64), (u8, u64, bool)>, Fail> {
    let (second, _) = filed_twice(months, 1)?;
    Ok(second)
}

#[test]
fn the_order_of_refusals_of_a_filing(rt: HostRuntime) -> Result<(), Fail> {
    assert_eq!(rt; filed_too_large(0)?, Err((42, 1, true)));
    assert_eq!(rt; filed_too_large(1)?, Err((41, 1, true)));
    assert_eq!(rt; filed_too_large(3)?, Err((25, 1, true)));
    Ok(())
}

/// A first filing that lapsed and a second that replaced it.
fn replaced(account: &mut Account<Flat>) -> Result<(Filing, Filing), Fail> {
    let first = filed(account, 1_000).map_err(refused)?;
    let _ = closed(account, 3);
    match filed(account, 500) {
        Ok(second) => Ok((first, second)),
        // The other filing has to be used up before the test can fail.
        Err(number) => {
            let _ = account.withdraw(first);
            Err(refused(number))
        }
    }
}

#[test]
fn a_replaced_filing_cannot_be_withdrawn(rt: HostRuntime) -> Result<(), Fail> {
    let mut account = held(1, 1_000)?;
    let (first, second) = replaced(&mut account)?;
    let before = seen(&account);
    let stale = withdrawn(&mut account, first);
    let after = seen(&account);
    let own = withdrawn(&mut account, second);
    assert_eq!(rt; stale, Err(43));
    assert_eq!(rt; after, before);
    assert_eq!(rt; own, Ok(2));
    assert_eq!(rt; read(&account), (3, 0, None, 1_000));
    Ok(())
}

#[test]
fn a_replaced_filing_cannot_be_taken_into_force(rt: HostRuntime) -> Result<(), Fail> {
    let mut account = held(1, 1_000)?;
    let design = plain(2_000)?;
    let (first, second) = replaced(&mut account)?;
    let _ = closed(&mut account, 2);
    let stale = forced(&mut account, first, design);
    let own = forced(&mut account, second, design);
    assert_eq!(rt; stale, foreign(1));
    assert_eq!(rt; own, Ok(2_000));
    assert_eq!(rt; read(&account), (5, 2_000, None, 1_000));
    Ok(())
}

/// Files, closes this many months, bills this many hours of no energy, and takes the filing into force.
fn forced_after(months: u32, bills: u32) -> Result<Result<i64, Back>, Fail> {
    let design = plain(2_000)?;
    let mut account = held(1, 1_000)?;
    let filing = filed(&mut account, 500).map_err(refused)?;
    let _ = closed(&mut account, months);
    for _ in 0..bills {
        let _ = account.bill(&[hour(0, 0)], 0, 1);
    }
    Ok(forced(&mut account, filing, design))
}

/// The first filing handed back for this reason, and then withdrawn.
fn handed_back(refusal: u8) -> Result<i64, Back> {
    Err(Back {
        refusal,
        kept: true,
        number: 1,
        withdrawal: Ok(1),
    })
}

#[test]
fn a_filing_is_taken_into_force_after_two_closings(rt: HostRuntime) -> Result<(), Fail> {
    assert_eq!(rt; forced_after(0, 0)?, handed_back(44));
    assert_eq!(rt; forced_after(1, 0)?, handed_back(44));
    assert_eq!(rt; forced_after(2, 0)?, Ok(2_000));
    assert_eq!(rt; forced_after(3, 0)?, handed_back(45));
    assert_eq!(rt; forced_after(4, 0)?, handed_back(45));
    assert_eq!(rt; forced_after(1_200, 0)?, handed_back(45));
    Ok(())
}

#[test]
fn no_filing_is_taken_into_force_in_a_billed_month(rt: HostRuntime) -> Result<(), Fail> {
    assert_eq!(rt; forced_after(0, 1)?, handed_back(44));
    assert_eq!(rt; forced_after(1, 1)?, handed_back(44));
    assert_eq!(rt; forced_after(2, 1)?, handed_back(46));
    assert_eq!(rt; forced_after(2, 2)?, handed_back(46));
    assert_eq!(rt; forced_after(3, 1)?, handed_back(45));
    Ok(())
}

/// What is seen before a filing is taken into force and after, with what that told. In the open month are costs.
fn seen_around_force() -> Result<(View, View, Result<i64, Back>), Fail> {
    let design = plain(2_000)?;
    let mut account = opened(8, -5_000, [590, 600, 800], plain(1_000)?)?;
    let filing = filed(&mut account, 1_000).map_err(refused)?;
    let _ = closed(&mut account, 2);
    let _ = account.cost(3, Cents(-77));
    let before = seen(&account);
    let answer = forced(&mut account, filing, design);
    Ok((before, seen(&account), answer))
}

#[test]
fn force_changes_the_rate_and_what_pends_and_nothing_else(rt: HostRuntime) -> Result<(), Fail> {
    let (before, after, answer) = seen_around_force()?;
    assert_eq!(rt; answer, Ok(-5_000));
    assert_eq!(rt; (before.design, before.e.0), (Some(1_000), 0));
    assert_eq!(rt; before.ledger.month.costs[2].total.0, -77);
    assert_eq!(rt;
        before.pending,
        Some(Pending {
            number: 1,
            e: RateUnits(-5_000),
            balance: Cents(-5_000),
            months: 0,
        })
    );
    let mut expected = before;
    expected.design = Some(2_000);
    expected.e = RateUnits(-5_000);
    expected.pending = None;
    assert_eq!(rt; after, expected);
    Ok(())
}

/// Files over this sum, closes two months and takes the filing into force with this design.
fn put_in_force(account: &mut Account<Flat>, sum: u64, design: Flat) -> Result<i64, u8> {
    let filing = filed(account, sum)?;
    let _ = closed(account, 2);
    forced(account, filing, design).map_err(|back| back.refusal)
}

#[test]
fn one_rate_follows_another(rt: HostRuntime) -> Result<(), Fail> {
    let mut account = held(1, 1_000)?;
    assert_eq!(rt; put_in_force(&mut account, 1_000, plain(2_000)?), Ok(1_000));
    assert_eq!(rt; put_in_force(&mut account, 1_000, plain(2_000)?), Err(41));
    assert_eq!(rt; closed(&mut account, 1), 0);
    assert_eq!(rt; read(&account), (3, 1_000, None, 1_000));
    assert_eq!(rt; put_in_force(&mut account, 2_000, plain(3_000)?), Ok(500));
    assert_eq!(rt; read(&account), (5, 500, None, 1_000));
    let after = seen(&account);
    assert_eq!(rt; (after.design, after.ledger.filings), (Some(3_000), 2));
    Ok(())
}

/// What the two accounts of a pair told.
type Pair = (Result<i64, Back>, Result<i64, Back>);

/// Two accounts file and close two months. Each is then asked to take the other's filing into force.
fn exchanged(one: &mut Account<Flat>, other: &mut Account<Flat>) -> Result<Pair, Fail> {
    let design = plain(2_000)?;
    let first = filed(one, 1_000).map_err(refused)?;
    let second = match filed(other, 1_000) {
        Ok(second) => second,
        // The other filing has to be used up before the test can fail.
        Err(number) => {
            let _ = one.withdraw(first);
            return Err(refused(number));
        }
    };
    let _ = closed(one, 2);
    let _ = closed(other, 2);
    let told = forced(one, second, design);
    Ok((told, forced(other, first, design)))
}

/// A filing handed back by an account that it is not pending in, whose withdrawal there is refused too.
fn foreign(number: u32) -> Result<i64, Back> {
    Err(Back {
        refusal: 43,
        kept: true,
        number,
        withdrawal: Err(43),
    })
}

#[test]
fn a_filing_of_another_account_is_refused(rt: HostRuntime) -> Result<(), Fail> {
    let mut one = held(1, 1_000)?;
    let mut other = held(2, 1_000)?;
    assert_eq!(rt; exchanged(&mut one, &mut other)?, (foreign(1), foreign(1)));
    assert_eq!(rt; read(&one), (2, 0, Some(1), 1_000));
    assert_eq!(rt; read(&other), (2, 0, Some(1), 1_000));
    Ok(())
}

#[test]
fn a_filing_of_another_number_is_refused(rt: HostRuntime) -> Result<(), Fail> {
    let mut one = held(1, 1_000)?;
    let mut other = held(1, 1_000)?;
    assert_eq!(rt; tried(&mut other, 1_000), Ok((1, 1_000)));
    assert_eq!(rt; exchanged(&mut one, &mut other)?, (foreign(2), foreign(1)));
    assert_eq!(rt; read(&one), (2, 0, Some(1), 1_000));
    assert_eq!(rt; read(&other), (2, 0, Some(2), 1_000));
    Ok(())
}

#[test]
fn an_account_takes_its_own_e_into_force(rt: HostRuntime) -> Result<(), Fail> {
    let mut one = held(1, 1_000)?;
    let mut other = held(1, 3_000)?;
    assert_eq!(rt; exchanged(&mut one, &mut other)?, (Ok(1_000), Ok(3_000)));
    assert_eq!(rt; read(&one), (2, 1_000, None, 1_000));
    assert_eq!(rt; read(&other), (2, 3_000, None, 3_000));
    Ok(())
}

/// One account is asked to take the other's filing into force while it has none pending, or before any closing.
fn early(number: u64, pends: bool) -> Result<Result<i64, Back>, Fail> {
    let design = plain(2_000)?;
    let mut one = held(1, 1_000)?;
    let mut other = held(number, 1_000)?;
    let filing = filed(&mut other, 1_000).map_err(refused)?;
    if !pends {
        return Ok(forced(&mut one, filing, design));
    }
    match filed(&mut one, 1_000) {
        Ok(own) => {
            let answer = forced(&mut one, filing, design);
            let _ = one.withdraw(own);
            Ok(answer)
        }
        // The other filing has to be used up before the test can fail.
        Err(number) => {
            let _ = other.withdraw(filing);
            Err(refused(number))
        }
    }
}

#[test]
fn a_foreign_filing_is_told_before_an_early_one(rt: HostRuntime) -> Result<(), Fail> {
    assert_eq!(rt; early(1, false)?, foreign(1));
    assert_eq!(rt; early(2, false)?, foreign(1));
    assert_eq!(rt; early(2, true)?, foreign(1));
    assert_eq!(rt; early(1, true)?, handed_back(44));
    Ok(())
}

/// Files in the other account and withdraws that filing from this one: what the withdrawal told, and whether this account was then as
/// before. In the other account the filing pends.
fn withdrawn_from(
    account: &mut Account<Flat>,
    other: &mut Account<Flat>,
) -> Result<(Result<u32, u8>, bool), Fail> {
    let filing = filed(other, 1_000).map_err(refused)?;
    let before = seen(account);
    let answer = withdrawn(account, filing);
    Ok((answer, seen(account) == before))
}

#[test]
fn only_its_own_pending_filing_is_withdrawn(rt: HostRuntime) -> Result<(), Fail> {
    let mut idle = held(3, 0)?;
    let mut account = held(1, 1_000)?;
    assert_eq!(rt; withdrawn_from(&mut idle, &mut account)?, (Err(43), true));
    assert_eq!(rt; read(&account), (0, 0, Some(1), 1_000));
    let mut other = held(2, 1_000)?;
    assert_eq!(rt; withdrawn_from(&mut account, &mut other)?, (Err(43), true));
    let mut ahead = held(1, 1_000)?;
    assert_eq!(rt; tried(&mut ahead, 1_000), Ok((1, 1_000)));
    assert_eq!(rt; withdrawn_from(&mut account, &mut ahead)?, (Err(43), true));
    let mut twin = held(1, 2_000)?;
    assert_eq!(rt; withdrawn_from(&mut account, &mut twin)?, (Ok(1), false));
    assert_eq!(rt; read(&account), (0, 0, None, 1_000));
    Ok(())
}

/// Files over the sum 1,000 and withdraws, this many times: 0, or the number of the refusal that stopped it.
fn filed_often(account: &mut Account<Flat>, times: u32) -> u8 {
    file_often(account, times).err().unwrap_or(0)
}

fn file_often(account: &mut Account<Flat>, times: u32) -> Result<(), u8> {
    for _ in 0..times {
        let filing = filed(account, 1_000)?;
        let _ = account.withdraw(filing);
    }
    Ok(())
}

#[test]
fn an_account_makes_a_million_filings(rt: HostRuntime) -> Result<(), Fail> {
    let mut account = held(1, 1_000)?;
    assert_eq!(rt; filed_often(&mut account, 999_999), 0);
    assert_eq!(rt; tried(&mut account, 1_000), Ok((1_000_000, 1_000)));
    assert_eq!(rt; tried(&mut account, 1_000), Err((47, 1_000, true)));
    assert_eq!(rt; tried(&mut account, 1), Err((47, 1, true)));
    assert_eq!(rt; account.figures().ledger.filings, 1_000_000);
    assert_eq!(rt; closed(&mut account, 1), 0);
    assert_eq!(rt; tried(&mut account, 1_000), Err((41, 1_000, true)));
    assert_eq!(rt; closed(&mut account, 2), 0);
    assert_eq!(rt; tried(&mut account, 1_000), Err((47, 1_000, true)));
    Ok(())
}

#[test]
fn the_millionth_filing_pends_like_any_other(rt: HostRuntime) -> Result<(), Fail> {
    let mut account = held(1, 1_000)?;
    assert_eq!(rt; filed_often(&mut account, 999_999), 0);
    let design = plain(2_000)?;
    let filing = filed(&mut account, 500).map_err(refused)?;
    let next = tried(&mut account, 1_000);
    let _ = closed(&mut account, 2);
    let answer = forced(&mut account, filing, design);
    assert_eq!(rt; next, Err((42, 1_000, true)));
    assert_eq!(rt; answer, Ok(2_000));
    Ok(())
}
