//! From draft to rate in force.
ghost use Rattle.std.specs.Prelude.{◌≡◌, None, Some, IfSome, cond};
ghost use Rattle.account.specs.Rules.{file_rule, force_rule, is_pending, unlapsed, withdraw_rule};

use crate::limits::{
    CLOSINGS_BEFORE_FORCE, CLOSINGS_TO_LAPSE, MONTHS_BETWEEN_FILINGS, MOST_FILINGS,
};
use crate::{Account, Draft, Filing, Pending, Refusal};
use reconciliation::{RateUnits, reconciliation_rate};

impl Filing {
    /// Uses the filing up, and tells the number that it had.
    fn spend(mut self) -> u32
        ensures { result ≡ self.number }
    {
        let number = self.number;
        self.number = 0;
        number
    }
}

impl<D> Account<D> {
    /// Whether a filing pends that has not lapsed.
    fn unlapsed(&self) -> bool
        ensures { result ≡ unlapsed self.now.figures.pending self.now.figures.ledger.months }
    {
        let months = self.figures.ledger.months;
        self.figures
            .pending
            .is_some_and(|p| months < p.months + CLOSINGS_TO_LAPSE)
    }

    /// Files the draft: fixes E of the last balance over its sum, and numbers the filing. A refusal hands the draft back.
    pub fn file(&mut self, draft: Draft) -> Result<Filing, (Draft, Refusal)>
        ensures { (result, self.new.figures) ≡ file_rule self.old.figures draft }
    {
        let ledger = self.figures.ledger;
        if ledger.months % MONTHS_BETWEEN_FILINGS != 0 {
            return Err((draft, Refusal::NotQuarterEnd));
        }
        if self.unlapsed() {
            return Err((draft, Refusal::AlreadyPending));
        }
        if ledger.filings >= MOST_FILINGS {
            return Err((draft, Refusal::FilingsFull));
        }
        let rate = reconciliation_rate(ledger.last, draft.sum);
        let e = rate.map_err(|_| (draft, Refusal::RateTooLarge))?;
        let e = RateUnits(e.units());
        let number = ledger.filings + 1;
        self.figures.ledger.filings = number;
        self.figures.pending = Some(Pending {
            number,
            e,
            balance: ledger.last,
            months: ledger.months,
        });
        Ok(Filing {
            account: self.figures.terms.account,
            number,
            e,
        })
    }

    /// What the account recorded of the filing, if it is the pending one.
    fn pending(&self, filing: &Filing) -> Option<Pending>
        ensures is { result ≡ cond (is_pending self.now.figures filing.now self.now.figures.pending) self.now.figures.pending None }
        ensures recorded { IfSome result (λ p. self.now.figures.pending ≡ Some p) }
    {
        let account = self.figures.terms.account;
        self.figures
            .pending
            .filter(|p| filing.account == account && filing.number == p.number)
    }

    /// Takes the pending filing into force with a new design. A refusal hands the filing back.
    pub fn force(&mut self, filing: Filing, design: D) -> Result<RateUnits, (Filing, Refusal)>
    where
        D: Drop,
        ensures { (result, self.new.figures) ≡ force_rule self.old.figures filing design }
    {
        let Some(p) = self.pending(&filing) else {
            return Err((filing, Refusal::NotPending));
        };
        let months = self.figures.ledger.months;
        if months < p.months + CLOSINGS_BEFORE_FORCE {
            return Err((filing, Refusal::TooEarly));
        }
        if months > p.months + CLOSINGS_BEFORE_FORCE {
            return Err((filing, Refusal::Lapsed));
        }
        if self.figures.ledger.month.bills != 0 {
            return Err((filing, Refusal::MonthBilled));
        }
        filing.spend();
        self.figures.rate.design = design;
        self.figures.rate.e = p.e;
        self.figures.pending = None;
        Ok(p.e)
    }

    /// Withdraws the pending filing. The filing is used up in any case.
    pub fn withdraw(&mut self, filing: Filing) -> Result<u32, Refusal>
        ensures { (result, self.new.figures) ≡ withdraw_rule self.old.figures filing }
    {
        let is_pending = self.pending(&filing).is_some();
        let number = filing.spend();
        if !is_pending {
            return Err(Refusal::NotPending);
        }
        self.figures.pending = None;
        Ok(number)
    }
}
