//! What the tests share: designs, openings, calls that tell their refusal by its number, and all that is seen of an account.
#[cfg(test)]
use account::Account;
use account::{CostLine, Draft, Filing, Ledger, OpenMonth, Opening, Pending, Refusal, Terms};
use designs::{Flat, FlatFigures, Hour, RateDesign, cut};
use reconciliation::{Cents, RateUnits, ReconciliationRate, tax_rate};
use std::test::Fail;

/// An hour of this energy at this price.
pub fn hour(kwh: u64, price: i64) -> Hour {
    Hour {
        kwh,
        price: RateUnits(price),
    }
}

/// A flat design of these figures.
pub fn flat(cost: i64, loss: i64, adm: i64, nits: i64) -> Result<Flat, Fail> {
    Ok(Flat::new(FlatFigures {
        cost,
        loss,
        adm,
        nits,
    })?)
}

/// A flat design whose PTC_Current is this cost.
pub fn plain(cost: i64) -> Result<Flat, Fail> {
    flat(cost, 10_000, 0, 0)
}

/// An opening of an account: its number, its balance, and its tax, under and over rate.
pub fn opening<D>(account: u64, balance: i64, rates: [i64; 3], design: D) -> Opening<D> {
    let [tax, under, over] = rates;
    Opening {
        account,
        balance: Cents(balance),
        tax,
        under,
        over,
        design,
    }
}

/// An account just opened.
pub fn opened<D: Copy>(
    number: u64,
    balance: i64,
    rates: [i64; 3],
    design: D,
) -> Result<Account<D>, Fail> {
    let mut account = Account::unopened(design);
    account.open(opening(number, balance, rates, design))?;
    Ok(account)
}

/// The number that a refusal is told by, 0 where there is none.
// For this layer's refusal: each layer has an enum of its own.
pub fn told<T: Drop>(answer: Result<T, Refusal>) -> u8 {
    answer.map_err(Refusal::number).err().unwrap_or(0)
}

/// All that is seen of an account, its design by what it bills 1,000 kWh at price 0 before E and tax, which is PTC_Current if flat.
#[derive(Clone, Copy, PartialEq, Eq, Debug)]
pub struct View {
    pub terms: Terms,
    pub design: Option<i64>,
    pub e: RateUnits,
    pub pending: Option<Pending>,
    pub ledger: Ledger,
}

/// What a design bills 1,000 kWh at price 0 before E and tax.
pub fn probed<D: RateDesign>(design: &D) -> Option<i64> {
    let hours = [hour(1_000, 0)];
    let period = cut(&hours, 0, 1).ok()?;
    let e = ReconciliationRate::try_from(0).ok()?;
    let tax = tax_rate(0).ok()?;
    Some(design.bill(period, e, tax).0)
}

/// What is seen of an account now.
pub fn seen<D: RateDesign>(account: &Account<D>) -> View {
    let figures = account.figures();
    View {
        terms: figures.terms,
        design: probed(&figures.rate.design),
        e: figures.rate.e,
        pending: figures.pending,
        ledger: figures.ledger,
    }
}

/// A month with no entry and no bill.
pub fn empty_month() -> OpenMonth {
    OpenMonth {
        costs: [CostLine {
            count: 0,
            total: Cents(0),
        }; 8],
        bills: 0,
        quantity: 0,
        billed: Cents(0),
    }
}

/// What is to be seen of an account just opened.
pub fn fresh(account: u32, balance: i64, rates: [u64; 3], ptc: i64) -> View {
    let [tax, under, over] = rates;
    View {
        terms: Terms {
            account,
            tax,
            under,
            over,
        },
        design: Some(ptc),
        e: RateUnits(0),
        pending: None,
        ledger: Ledger {
            last: Cents(balance),
            months: 0,
            filings: 0,
            month: empty_month(),
        },
    }
}

/// The months closed, E, the pending filing's number and the balance now, as a reading tells them.
pub fn read<D: RateDesign>(account: &Account<D>) -> (u32, i64, Option<u32>, i64) {
    let reading = account.reading();
    (
        reading.months,
        reading.e.0,
        reading.pending,
        reading.balance.0,
    )
}

/// Enters the same cost this many times: 0, or the number of the refusal that stopped it.
pub fn entered_often<D>(account: &mut Account<D>, kind: u64, amount: i64, times: u32) -> u8 {
    told(enter_often(account, kind, amount, times))
}

fn enter_often<D>(
    account: &mut Account<D>,
    kind: u64,
    amount: i64,
    times: u32,
) -> Result<(), Refusal> {
    for _ in 0..times {
        account.cost(kind, Cents(amount))?;
    }
    Ok(())
}

/// Closes this many months: 0, or the number of the refusal that stopped it.
pub fn closed<D>(account: &mut Account<D>, months: u32) -> u8 {
    told(close_often(account, months))
}

fn close_often<D>(account: &mut Account<D>, months: u32) -> Result<(), Refusal> {
    for _ in 0..months {
        account.close()?;
    }
    Ok(())
}

/// Files over this projected sum, or tells the number of the refusal.
pub fn filed<D>(account: &mut Account<D>, sum: u64) -> Result<Filing, u8> {
    let draft = Draft::new(sum, 0, 0).map_err(Refusal::number)?;
    account
        .file(draft)
        .map_err(|(_draft, refusal)| refusal.number())
}

/// The failure of a test in which a lawful filing was refused.
pub fn refused(number: u8) -> Fail {
    Fail::new(format_args!("a lawful filing was refused: {number}"))
}

/// Withdraws the filing: its number, or the number of the refusal.
pub fn withdrawn<D>(account: &mut Account<D>, filing: Filing) -> Result<u32, u8> {
    account.withdraw(filing).map_err(Refusal::number)
}

/// A filing that was not taken into force: why, whether the account was then as before, the number of the filing handed back,
/// and what its withdrawal told.
#[derive(Clone, Copy, PartialEq, Eq, Debug)]
pub struct Back {
    pub refusal: u8,
    pub kept: bool,
    pub number: u32,
    pub withdrawal: Result<u32, u8>,
}

/// Takes the filing into force and tells E; where that is refused, withdraws it.
pub fn forced(account: &mut Account<Flat>, filing: Filing, design: Flat) -> Result<i64, Back> {
    let before = seen(account);
    let answer = account.force(filing, design).map(|e| e.0);
    answer.map_err(|(filing, refusal)| Back {
        refusal: refusal.number(),
        kept: seen(account) == before,
        number: filing.number(),
        withdrawal: withdrawn(account, filing),
    })
}

/// An account used for three months: opened as number 9 with 50.00 at tax 5.90 %, under 6 % and over 8 %, PTC_Current 8,000 and E 5
/// taken into force after the second, its balance 50.75, and in the open month a cost of 123.45 and a bill of 10 kWh.
pub fn used() -> Result<Account<Flat>, Fail> {
    let design = plain(8_000)?;
    let mut account = opened(9, 5_000, [590, 600, 800], plain(7_000)?)?;
    let filing = filed(&mut account, 1_000_000).map_err(refused)?;
    let _ = closed(&mut account, 2);
    let _ = forced(&mut account, filing, design);
    let _ = account.close();
    let _ = account.cost(2, Cents(12_345));
    let _ = account.bill(&[hour(10, 0)], 0, 1);
    Ok(account)
}
