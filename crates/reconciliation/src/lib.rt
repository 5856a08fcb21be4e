//! The rules of reconciliation: tax, net, carrying charge and the reconciliation rate E, with the figures that they are worked from.
#![tactic(auto)]

mod figures;
mod refusal;
mod rules;

pub use figures::rates::{annual_rate, tax_rate};
pub use figures::{AnnualRate, Cents, ProjectedSum, RateUnits, ReconciliationRate, TaxRate};
pub use refusal::Refusal;
pub use rules::{carrying_charge, monthly_rate, net, reconciliation_rate, tax};
