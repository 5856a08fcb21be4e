//! Figures with a unit or a range of their own.
pub mod projected_sum;
pub mod rates;
pub mod reconciliation_rate;

ghost use Rattle.std.specs.Prelude.{◌≤◌};
ghost use Rattle.reconciliation.specs.Figures.{WithinReach};

use ranges::Ranged;

/// Money in whole cents. A positive balance is an under-collection, a negative one an over-collection.
#[derive(Clone, Copy, PartialEq, Eq, Debug)]
pub struct Cents(pub i64);

/// A rate in units of 0.00001 dollar per kWh; a price in cents per MWh is the same number.
#[derive(Clone, Copy, PartialEq, Eq, Debug)]
pub struct RateUnits(pub i64);

/// The gross receipts tax T in ten-thousandths, 0 to 2,000.
pub type TaxRate = Ranged<0, 2_000>;

/// An annual interest rate in ten-thousandths, 0 to 2,400.
pub type AnnualRate = Ranged<0, 2_400>;

/// The reconciliation rate E in rate units, at most 100,000 in size.
#[derive(Clone, Copy, PartialEq, Eq, Debug)]
pub struct ReconciliationRate {
    units: i64,
    ghost small: { WithinReach units },
}

/// The quantity projected for the months in which a reconciliation rate is billed, at least 1.
#[derive(Clone, Copy, PartialEq, Eq, Debug)]
pub struct ProjectedSum {
    units: u64,
    ghost some: { 1 ≤ units },
}
