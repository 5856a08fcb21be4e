//! The balance, and closing the open month.
ghost use Rattle.std.specs.Prelude.{◌≡◌, ◌≤◌, MatchResult, unsigned_abs};
ghost use Rattle.refusals.specs.Checks.{answer_unless, first};
ghost use Rattle.account.specs.Limits.{most_balance};
ghost use Rattle.account.specs.Rules.{balance_before, balance_checks, close_rule, closing_of, empty_month};

use crate::limits::{MOST_BALANCE, MOST_MONTHS};
use crate::{Account, Closing, CostLine, OpenMonth, Refusal};
use reconciliation::{AnnualRate, Cents, annual_rate, carrying_charge, net, tax};

impl OpenMonth {
    /// A month with no entry and no bill.
    pub(crate) fn empty() -> OpenMonth
        ensures { result ≡ empty_month }
    {
        OpenMonth {
            costs: [CostLine {
                count: 0,
                total: Cents(0),
            }; 8],
            bills: 0,
            quantity: 0,
            billed: Cents(0),
        }
    }
}

/// The annual rate of this many ten-thousandths.
fn annual(value: u64) -> AnnualRate
    requires { value ≤ 2400 }
    ensures { result.value ≡ value }
{
    annual_rate(value as i64).unwrap()
}

impl<D> Account<D> {
    /// The balance now: the last balance and the costs so far, less the bills so far net of tax.
    pub(crate) fn balance(&self) -> Cents
        ensures value { result.0 ≡ balance_before self.now.figures.ledger self.now.figures.terms.tax }
        ensures small { unsigned_abs result.0 ≤ 9010000000000000 }
    {
        let ledger = &self.figures.ledger;
        let costs = self.costs();
        let net = net(ledger.month.billed, self.tax_in_force());
        Cents(ledger.last.0 + costs.0 - net.0)
    }

    /// What closing the open month tells, or the refusal of a balance too large in size.
    #[tactic(auto, using(crate::proofs::Balances::charge_within, crate::proofs::Balances::after_fits))]
    fn closing(&self) -> Result<Closing, Refusal>
        ensures rule { result ≡ answer_unless (first (balance_checks self.now.figures.terms self.now.figures.ledger)) (closing_of self.now.figures.terms self.now.figures.ledger) }
        ensures small { MatchResult result (λ k. unsigned_abs k.balance.0 ≤ most_balance) (λ _. Unit) }
    {
        let terms = &self.figures.terms;
        let ledger = &self.figures.ledger;
        let before = self.balance();
        if before.0.unsigned_abs() > MOST_BALANCE {
            return Err(Refusal::BalanceTooLarge);
        }
        let charge = carrying_charge(ledger.last, before, annual(terms.under), annual(terms.over));
        let balance = Cents(before.0 + charge.0);
        if balance.0.unsigned_abs() > MOST_BALANCE {
            return Err(Refusal::BalanceTooLarge);
        }
        Ok(Closing {
            months: ledger.months + 1,
            tax: tax(ledger.month.billed, self.tax_in_force()),
            net: net(ledger.month.billed, self.tax_in_force()),
            charge,
            balance,
        })
    }

    /// Closes the open month with its carrying charge, or refuses and leaves the account as it was.
    pub fn close(&mut self) -> Result<Closing, Refusal>
        ensures { (result, self.new.figures) ≡ close_rule self.old.figures }
    {
        if self.figures.ledger.months >= MOST_MONTHS {
            return Err(Refusal::MonthsFull);
        }
        let closing = self.closing()?;
        self.figures.ledger.last = closing.balance;
        self.figures.ledger.months = closing.months;
        self.figures.ledger.month = OpenMonth::empty();
        Ok(closing)
    }
}
