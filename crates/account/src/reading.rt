//! Reading an account.
ghost use Rattle.std.specs.Prelude.{◌≡◌};
ghost use Rattle.account.specs.Rules.{reading_of};
ghost use Rattle.account.specs.Laws.{EveryRun};

use crate::{Account, Figures, Reading};
use designs::RateDesign;

impl<D> Account<D> {
    /// Every figure that the account holds.
    pub fn figures(&self) -> &Figures<D>
        ensures { result.now ≡ self.now.figures }
    {
        &self.figures
    }

    /// What a reading tells.
    fn told(&self) -> Reading
        ensures { result ≡ reading_of self.now.figures }
    {
        Reading {
            months: self.figures.ledger.months,
            e: self.figures.rate.e,
            pending: self.figures.pending.map(|p| p.number),
            balance: self.balance(),
        }
    }
}

impl<D: RateDesign> Account<D> {
    /// Tells the months closed, E, the pending filing's number and the balance now. Whatever calls led here, they conserve the
    /// balance, recover each filing taken into force within its allowances, and do not depend on the order of costs and bills.
    pub fn reading(&self) -> Reading
        ensures told { result ≡ reading_of self.now.figures }
        ensures laws { EveryRun D.RateDesign.meaning self.now.figures result }
    {
        self.told()
    }
}
