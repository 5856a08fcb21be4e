ghost use Rattle.std.specs.Prelude.{◌≡◌, ◌≤◌, MatchResult};
ghost use Rattle.reconciliation.specs.declared.refusal.Refusal.TheVariants.{Projections};

use crate::{ProjectedSum, Refusal};

impl TryFrom<u64> for ProjectedSum {
    type Error = Refusal;

    ghost try_from_gives = { λ units result. MatchResult result (λ s. (s.units ≡ units) × (1 ≤ units)) (λ e. (e ≡ Projections) × (units ≡ 0)) };

    fn try_from(units: u64) -> Result<ProjectedSum, Refusal> {
        if units == 0 {
            return Err(Refusal::Projections);
        }
        Ok(ProjectedSum { units })
    }
}

impl ProjectedSum {
    /// In units of quantity.
    pub fn units(self) -> u64
        ensures { result ≡ self.units }
    {
        self.units
    }
}
