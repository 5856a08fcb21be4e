//! Figures of a design, each in its range.
ghost use Rattle.std.specs.Prelude.{◌≡◌, pos, MatchResult};
ghost use Rattle.designs.specs.Components.{ComponentRange, LossRange};

use crate::Refusal;
use ranges::Ranged;

/// A rate component, 0 to 100,000 rate units.
pub type Component = Ranged<0, 100_000>;

/// A loss multiplier in ten-thousandths, 10,000 to 11,000.
pub type LossMultiplier = Ranged<10_000, 11_000>;

// Two functions and not one over the bounds: each promise names the range of its own figure.

/// The component of this many rate units; refused unless 0 to 100,000.
pub fn rate_component(given: i64) -> Result<Component, Refusal>
    ensures { MatchResult result (λ t. (pos t.value ≡ given) × ComponentRange given) (λ e. (e ≡ Refusal.FigureOutOfRange) × (ComponentRange given → ⊥)) }
{
    Ok(Component::try_from(given)?)
}

/// The multiplier of this many ten-thousandths; refused unless 10,000 to 11,000.
pub fn loss_multiplier(given: i64) -> Result<LossMultiplier, Refusal>
    ensures { MatchResult result (λ t. (pos t.value ≡ given) × LossRange given) (λ e. (e ≡ Refusal.FigureOutOfRange) × (LossRange given → ⊥)) }
{
    Ok(LossMultiplier::try_from(given)?)
}
