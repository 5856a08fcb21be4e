ghost use Rattle.std.specs.Prelude.{◌≡◌};
ghost use Rattle.reconciliation.specs.Refusals.{number_of};
ghost use Rattle.reconciliation.specs.declared.refusal.Refusal.TheVariants.{TaxOrInterest};

use ranges::OutOfRange;

/// Why a figure or a reconciliation rate is refused, with the number that tells it.
#[derive(Clone, Copy, PartialEq, Eq, Debug)]
pub enum Refusal {
    /// The tax or an interest rate is out of range.
    TaxOrInterest = 22,
    /// The projected sum is zero.
    Projections = 24,
    /// The reconciliation rate is too large in size.
    RateTooLarge = 25,
}

impl Refusal {
    /// The number that tells it.
    pub fn number(self) -> u8
        ensures { result ≡ number_of self }
    {
        // The cast is of this enum alone, so no generic function can make it.
        self as u8
    }
}

/// The figures that have a range are the tax and the interest rates.
// By hand: a `From` that is derived has no contract.
impl From<OutOfRange> for Refusal {
    ghost from_gives = { λ _ refusal. refusal ≡ TaxOrInterest };

    fn from(_outside: OutOfRange) -> Refusal {
        Refusal::TaxOrInterest
    }
}
