//! The rates in force, as the types that say their ranges.
ghost use Rattle.std.specs.Prelude.{◌≡◌};

// The account keeps plain figures, so that a rule can build the record that a call leaves; a type with a range would want a proof in it.

use crate::Account;
use reconciliation::{ReconciliationRate, TaxRate, tax_rate};

impl<D> Account<D> {
    /// The tax T in force.
    pub(crate) fn tax_in_force(&self) -> TaxRate
        ensures { result.value ≡ self.now.figures.terms.tax }
    {
        tax_rate(self.figures.terms.tax as i64).unwrap()
    }

    /// The reconciliation rate E in force.
    pub(crate) fn e_in_force(&self) -> ReconciliationRate
        ensures { result.units ≡ self.now.figures.rate.e.0 }
    {
        ReconciliationRate::try_from(self.figures.rate.e.0).unwrap()
    }
}
