//! Costs of the open month.
ghost use Rattle.std.specs.Prelude.{◌≡◌, ◌≤◌, unsigned_abs};
ghost use Rattle.account.specs.Kinds.{kind_number};
ghost use Rattle.account.specs.Rules.{cost_rule, costs_of};

use crate::limits::{MOST_AMOUNT, MOST_ENTRIES};
use crate::{Account, CostKind, Refusal};
use reconciliation::Cents;

impl<D> Account<D> {
    /// Adds an amount to the line of a kind, 1 to 8.
    pub fn cost(&mut self, kind: u64, amount: Cents) -> Result<(), Refusal>
        ensures { (result, self.new.figures) ≡ cost_rule self.old.figures kind amount.0 }
    {
        // A number and not a `CostKind`: a kind that is none is refused here, in its place among the checks.
        let kind = CostKind::try_from(kind)?;
        self.enter(kind, amount)
    }

    /// Enters a cost on the line of its kind.
    fn enter(&mut self, kind: CostKind, amount: Cents) -> Result<(), Refusal>
        ensures { (result, self.new.figures) ≡ cost_rule self.old.figures (kind_number kind) amount.0 }
    {
        if amount.0.unsigned_abs() > MOST_AMOUNT {
            return Err(Refusal::AmountTooLarge);
        }
        let line = &mut self.figures.ledger.month.costs[kind.number() as usize - 1];
        if line.count >= MOST_ENTRIES {
            return Err(Refusal::LineFull);
        }
        line.count += 1;
        line.total.0 += amount.0;
        Ok(())
    }

    /// The costs of the open month so far.
    pub(crate) fn costs(&self) -> Cents
        ensures value { result.0 ≡ costs_of self.now.figures.ledger.month }
        ensures small { unsigned_abs result.0 ≤ 8000000000000000 }
    {
        let lines = &self.figures.ledger.month.costs;
        let total: i64 = lines.iter().map(|line| line.total.0).sum();
        Cents(total)
    }
}
