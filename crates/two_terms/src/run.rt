//! A run of one account: what comes in its months and what becomes of its filings, each answer printed as it comes.
ghost use Rattle.std.specs.Prelude.{◌≡◌, IfOk};
ghost use Rattle.account.specs.Rules.{opened};

use crate::plan::HELD;
use crate::refused::Refused;
use crate::term::{Filed, Sums};
use crate::written::{Money, PerKwh};
use account::{Account, Billed, CostKind, Draft, Filing, Opening};
use designs::Flat;
use reconciliation::{Cents, RateUnits};

/// A part of the held hours.
#[derive(Clone, Copy)]
pub struct Part {
    pub start: usize,
    pub count: usize,
}

/// What comes in a month: a cost, and two bills for parts of the held hours.
#[derive(Clone, Copy)]
pub struct Month {
    pub kind: CostKind,
    pub amount: Cents,
    pub first: Part,
    pub second: Part,
}

/// What became of a filing.
#[derive(Clone, Copy)]
enum Taken {
    Forced(RateUnits),
    Withdrawn(u32),
}

/// An account, and where its answers are printed.
#[derive(Drop)]
pub struct Run<'a, P: Print> {
    rt: &'a P,
    account: Account<Flat>,
}

impl<'a, P: Print> Run<'a, P> {
    /// Opens an account. What is promised is what it holds where the opening was taken.
    pub fn open(rt: &'a P, opening: Opening<Flat>) -> anyhow::Result<Run<'a, P>>
        ensures { IfOk result (λ run. run.account.figures ≡ opened opening) }
    {
        let number = opening.account;
        let balance = opening.balance;
        let mut account = Account::unopened(opening.design);
        account.open(opening).map_err(Refused::from)?;
        println!(rt; "open\t{number}\t{}", Money(balance))?;
        let run = Run { rt, account };
        run.read()?;
        Ok(run)
    }

    /// Tells the figures of now.
    fn read(&self) -> anyhow::Result<()> {
        let reading = self.account.reading();
        let months = reading.months;
        let e = PerKwh(reading.e);
        let balance = Money(reading.balance);
        match reading.pending {
            Some(number) => println!(self.rt; "reading\t{months}\t{e}\t{number}\t{balance}")?,
            None => println!(self.rt; "reading\t{months}\t{e}\t-\t{balance}")?,
        }
        Ok(())
    }

    /// Bills a part of the held hours.
    fn bill(&mut self, part: Part) -> anyhow::Result<Billed> {
        let Part { start, count } = part;
        let billed = self
            .account
            .bill(&HELD, start, count)
            .map_err(Refused::from)?;
        println!(self.rt; "bill\t{}\t{}", billed.quantity, Money(billed.amount))?;
        Ok(billed)
    }

    /// Enters the month's cost and bills, closes it, and tells each answer. What is promised of its sums is only that a month is one of
    /// two bills.
    pub fn pass(&mut self, month: Month) -> anyhow::Result<Sums>
        ensures { IfOk result (λ sums. (sums.bills ≡ 2) × (sums.months ≡ 1)) }
    {
        let kind = u64::from(month.kind.number());
        self.account
            .cost(kind, month.amount)
            .map_err(Refused::from)?;
        println!(self.rt; "cost\t{kind}\t{}", Money(month.amount))?;
        let first = self.bill(month.first)?;
        let second = self.bill(month.second)?;
        let closing = self.account.close().map_err(Refused::from)?;
        let months = closing.months;
        let tax = Money(closing.tax);
        let net = Money(closing.net);
        let charge = Money(closing.charge);
        let balance = Money(closing.balance);
        println!(self.rt; "close\t{months}\t{tax}\t{net}\t{charge}\t{balance}")?;
        Ok(Sums {
            bills: 2,
            months: 1,
            quantity: first.quantity.saturating_add(second.quantity),
            net: closing.net,
        })
    }

    /// Files a draft, passes two months while the filing pends, and takes it into force or withdraws it. What is promised is only that
    /// it tells the balance and the sum that were filed.
    pub fn file(
        &mut self,
        draft: Draft,
        months: [Month; 2],
        next: Option<Flat>,
    ) -> anyhow::Result<(Filed, Sums)>
        ensures { IfOk result (λ told. (told.0.balance ≡ self.old.account.figures.ledger.last) × (told.0.projected ≡ draft.sum.units)) }
    {
        let balance = self.account.figures().ledger.last;
        let projected = draft.sum().units();
        let filing = self
            .account
            .file(draft)
            .map_err(|(_, refusal)| Refused::from(refusal))?;
        let e = filing.e();
        // No `?` before the filing is used up.
        let pended = self.pend(&filing, months);
        let taken = self.take(filing, next);
        let sums = pended?;
        match taken? {
            Taken::Forced(e) => println!(self.rt; "force\t{}", PerKwh(e))?,
            Taken::Withdrawn(number) => println!(self.rt; "withdraw\t{number}")?,
        }
        self.read()?;
        Ok((
            Filed {
                balance,
                projected,
                e,
            },
            sums,
        ))
    }

    /// Tells a filing, and passes two months while it pends: both months, whatever failed before, and the first failure is told.
    fn pend(&mut self, filing: &Filing, months: [Month; 2]) -> anyhow::Result<Sums> {
        let shown = println!(self.rt; "file\t{}\t{}", filing.number(), PerKwh(filing.e()));
        let told = self.read();
        let [first, second] = months;
        let first = self.pass(first);
        let second = self.pass(second);
        shown?;
        told?;
        Ok(first?.and(second?))
    }

    /// Takes a filing into force with the next design, or withdraws it where there is none; a refused one is withdrawn.
    fn take(&mut self, filing: Filing, next: Option<Flat>) -> Result<Taken, Refused> {
        let Some(design) = next else {
            return Ok(Taken::Withdrawn(self.account.withdraw(filing)?));
        };
        let account = &mut self.account;
        let e = account.force(filing, design).map_err(|(filing, refusal)| {
            let _ = account.withdraw(filing);
            refusal
        })?;
        Ok(Taken::Forced(e))
    }
}
