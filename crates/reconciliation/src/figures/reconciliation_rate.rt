ghost use Rattle.std.specs.Prelude.{◌≡◌, MatchResult};
ghost use Rattle.reconciliation.specs.declared.refusal.Refusal.TheVariants.{RateTooLarge};
ghost use Rattle.reconciliation.specs.Figures.{WithinReach};

use crate::{ReconciliationRate, Refusal};

impl TryFrom<i64> for ReconciliationRate {
    type Error = Refusal;

    ghost try_from_gives = { λ units result. MatchResult result (λ e. (e.units ≡ units) × WithinReach units) (λ e. (e ≡ RateTooLarge) × (WithinReach units → ⊥)) };

    fn try_from(units: i64) -> Result<ReconciliationRate, Refusal> {
        ReconciliationRate::within_reach(i128::from(units))
    }
}

impl ReconciliationRate {
    /// The rate of this many rate units; refused beyond 100,000 in size.
    pub(crate) fn within_reach(units: i128) -> Result<ReconciliationRate, Refusal>
        ensures { MatchResult result (λ e. (e.units ≡ units) × WithinReach units) (λ e. (e ≡ Refusal.RateTooLarge) × (WithinReach units → ⊥)) }
    {
        if !(-100_000..=100_000).contains(&units) {
            return Err(Refusal::RateTooLarge);
        }
        Ok(ReconciliationRate {
            units: units as i64,
        })
    }

    /// In rate units.
    pub fn units(self) -> i64
        ensures { result ≡ self.units }
    {
        self.units
    }
}
