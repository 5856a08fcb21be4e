ghost use Rattle.std.specs.Prelude.{◌≡◌};
ghost use Rattle.designs.specs.Refusals.{hour_of, number_of, period_number};
ghost use Rattle.designs.specs.declared.refusal.Refusal.TheVariants.{FigureOutOfRange};

use ranges::OutOfRange;

/// Why a figure of a design is refused, with the number that tells it.
#[derive(Clone, Copy, PartialEq, Eq, Debug)]
pub enum Refusal {
    /// A figure of a design is out of range.
    FigureOutOfRange = 21,
}

/// Why a period is refused; where an hour is the cause, with its place in the period, from 0.
#[derive(Clone, Copy, PartialEq, Eq, Debug)]
pub enum PeriodRefusal {
    /// A period of no hours, or of more than 840.
    HourCount,
    /// The period passes the last hour held.
    PastLastHour,
    /// An hour of more than 100,000 kWh.
    EnergyTooLarge { hour: usize },
    /// An hour with a price outside -100,000 to 400,000 rate units.
    PriceOutOfRange { hour: usize },
}

impl Refusal {
    /// The number that tells it.
    pub fn number(self) -> u8
        ensures { result ≡ number_of self }
    {
        // The cast is of this enum alone, so no generic function can make it.
        self as u8
    }
}

impl PeriodRefusal {
    /// The number that tells it.
    pub fn number(self) -> u8
        ensures { result ≡ period_number self }
    {
        match self {
            PeriodRefusal::HourCount => 11,
            PeriodRefusal::PastLastHour => 12,
            PeriodRefusal::EnergyTooLarge { .. } => 13,
            PeriodRefusal::PriceOutOfRange { .. } => 14,
        }
    }

    /// The place in the period of the hour that is the cause, if one is.
    pub fn hour(self) -> Option<usize>
        ensures { result ≡ hour_of self }
    {
        match self {
            PeriodRefusal::HourCount | PeriodRefusal::PastLastHour => None,
            PeriodRefusal::EnergyTooLarge { hour } | PeriodRefusal::PriceOutOfRange { hour } => {
                Some(hour)
            }
        }
    }
}

// By hand: a `From` that is derived has no contract.
impl From<OutOfRange> for Refusal {
    ghost from_gives = { λ _ refusal. refusal ≡ FigureOutOfRange };

    fn from(_outside: OutOfRange) -> Refusal {
        Refusal::FigureOutOfRange
    }
}
