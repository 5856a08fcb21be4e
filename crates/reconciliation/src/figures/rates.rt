//! The tax and the annual interest rates, refused out of their ranges.
ghost use Rattle.std.specs.Prelude.{◌≡◌, pos, MatchResult};
ghost use Rattle.reconciliation.specs.Figures.{InterestRange, TaxRange};

use crate::{AnnualRate, Refusal, TaxRate};

// Two functions and not one over the bound: each promise names the range of its own figure.

/// The tax of this many ten-thousandths; refused unless 0 to 2,000.
pub fn tax_rate(given: i64) -> Result<TaxRate, Refusal>
    ensures { MatchResult result (λ t. (pos t.value ≡ given) × TaxRange given) (λ e. (e ≡ Refusal.TaxOrInterest) × (TaxRange given → ⊥)) }
{
    Ok(TaxRate::try_from(given)?)
}

/// The interest rate of this many ten-thousandths; refused unless 0 to 2,400.
pub fn annual_rate(given: i64) -> Result<AnnualRate, Refusal>
    ensures { MatchResult result (λ t. (pos t.value ≡ given) × InterestRange given) (λ e. (e ≡ Refusal.TaxOrInterest) × (InterestRange given → ⊥)) }
{
    Ok(AnnualRate::try_from(given)?)
}
