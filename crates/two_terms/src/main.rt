//! Runs one account through two terms and prints each answer; then for each term how far it is from recovering its filing, and the four
//! allowances.
#![tactic(auto)]

mod plan;
mod refused;
mod run;
mod term;
mod written;

use account::{Draft, Opening};
use designs::{Flat, FlatFigures, RateDesign};
use plan::MONTHS;
use reconciliation::{Cents, ReconciliationRate};
use refused::Refused;
use run::Run;
use term::{Filed, Sums};
use written::{FineMils, HalfMils};

/// A flat design of this cost component.
fn flat(cost: i64) -> Result<Flat, Refused> {
    Ok(Flat::new(FlatFigures {
        cost,
        loss: 10_515,
        adm: 21,
        nits: 339,
    })?)
}

/// A draft of three monthly projections.
fn draft(first: u64, second: u64, third: u64) -> Result<Draft, Refused> {
    Ok(Draft::new(first, second, third)?)
}

/// Tells how far a term is from recovering its filing, and the four allowances: for rounding bills, for rounding each month's tax, for
/// rounding rates, and for billing another quantity than was projected; all in mils.
fn report(
    rt: &impl Print,
    number: u32,
    design: &Flat,
    filed: Filed,
    term: Sums,
) -> anyhow::Result<()> {
    let slack = design.slack();
    let e = ReconciliationRate::try_from(filed.e.0).map_err(Refused::from)?;
    let difference = FineMils(term.difference(design, filed.balance));
    let bills = HalfMils(term.bills_allowance(slack));
    let months = HalfMils(term.months_allowance());
    let rates = HalfMils(term.rates_allowance(slack, filed.projected));
    let quantity = HalfMils(term.quantity_allowance(e, filed.projected));
    println!(rt; "term\t{number}\t{difference}\t{bills}\t{months}\t{rates}\t{quantity}")?;
    Ok(())
}

/// The account is opened; the first filing is taken into force, the second after it, and the third is withdrawn.
fn two_terms(rt: &impl Print) -> anyhow::Result<()> {
    let opening = Opening {
        account: 7,
        balance: Cents(1_234_567),
        tax: 590,
        under: 600,
        over: 800,
        design: flat(6_453)?,
    };
    let mut run = Run::open(rt, opening)?;
    let [m1, m2, m3, m4, m5, m6, m7, m8] = MONTHS;
    let second = flat(6_600)?;
    let third = flat(6_200)?;
    let first_draft = draft(450_000, 500_000, 550_000)?;
    let (filed, _) = run.file(first_draft, [m1, m2], Some(second))?;
    let sums = run.pass(m3)?;
    let second_draft = draft(400_000, 500_000, 600_001)?;
    let (filed_next, rest) = run.file(second_draft, [m4, m5], Some(third))?;
    report(rt, 1, &second, filed, sums.and(rest))?;
    let sums = run.pass(m6)?;
    let third_draft = draft(500_000, 500_000, 500_000)?;
    let (_, rest) = run.file(third_draft, [m7, m8], None)?;
    report(rt, 2, &third, filed_next, sums.and(rest))
}

fn main(rt: HostRuntime) -> anyhow::Result<()> {
    two_terms(&rt)
}
