//! An account is opened.
ghost use Rattle.std.specs.Prelude.{◌≡◌, ◌≤◌, unsigned_abs};
ghost use Rattle.account.specs.Lawful.{Agreed};
ghost use Rattle.account.specs.Limits.{most_balance};
ghost use Rattle.account.specs.Rules.{open_rule, opened, starting, no_opening};

use crate::limits::MOST_BALANCE;
use crate::{Account, Figures, Ledger, OpenMonth, Rate, Refusal, Terms};
use reconciliation::{Cents, RateUnits, annual_rate, tax_rate};

/// What an account is opened with: its number, its last balance, the tax and the annual interest rates in ten-thousandths, and the
/// design in force.
#[derive(Drop)]
pub struct Opening<D> {
    pub account: u64,
    pub balance: Cents,
    pub tax: i64,
    pub under: i64,
    pub over: i64,
    pub design: D,
}

impl<D> Account<D> {
    /// An account on these terms, before any call.
    fn starting(terms: Terms, balance: Cents, design: D) -> Account<D>
        requires agreed { Agreed terms }
        requires small { unsigned_abs balance.0 ≤ most_balance }
        ensures { result.figures ≡ starting terms balance design }
    {
        Account {
            figures: Figures {
                terms,
                rate: Rate {
                    design,
                    e: RateUnits(0),
                },
                pending: None,
                ledger: Ledger {
                    last: balance,
                    months: 0,
                    filings: 0,
                    month: OpenMonth::empty(),
                },
            },
        }
    }

    /// A lawful account to be lent to an opening, as if it had been opened with number 0 and nothing else.
    pub fn unopened(design: D) -> Account<D>
        ensures { result.figures ≡ opened (no_opening design) }
    {
        let terms = Terms {
            account: 0,
            tax: 0,
            under: 0,
            over: 0,
        };
        Account::starting(terms, Cents(0), design)
    }

    /// Writes the lent account whole, or refuses and leaves it as it was.
    pub fn open(&mut self, opening: Opening<D>) -> Result<(), Refusal>
    where
        D: Drop,
        ensures { (result, self.new.figures) ≡ open_rule self.old.figures opening }
    {
        let Opening {
            account,
            balance,
            tax,
            under,
            over,
            design,
        } = opening;
        let tax = tax_rate(tax)?.value();
        let under = annual_rate(under)?.value();
        let over = annual_rate(over)?.value();
        let number = u32::try_from(account).map_err(|_| Refusal::NumberOrBalance)?;
        if balance.0.unsigned_abs() > MOST_BALANCE {
            return Err(Refusal::NumberOrBalance);
        }
        let terms = Terms {
            account: number,
            tax,
            under,
            over,
        };
        *self = Account::starting(terms, balance, design);
        Ok(())
    }
}
