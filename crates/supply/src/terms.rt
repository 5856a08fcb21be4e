//! What a schedule is worked with beside its lists.
use crate::{CentsPerMwh, Hundredths, TenThousandths};

/// A part of the three months that a schedule is for.
#[derive(Clone, Copy, PartialEq, Eq, Debug)]
pub struct Season {
    /// What a price is multiplied by, in hundredths, 50 to 200.
    pub factor: Hundredths,
    /// How many of the three months.
    pub months: u64,
}

/// The two seasons of a schedule, whose months add to 3.
#[derive(Clone, Copy, PartialEq, Eq, Debug)]
pub struct Seasons {
    /// The summer's part.
    pub summer: Season,
    /// The winter's part.
    pub winter: Season,
}

/// The terms of a schedule.
#[derive(Clone, Copy, Debug)]
pub struct Terms {
    /// The seasons that the tranches are for.
    pub seasons: Seasons,
    /// The share s that the tranches supply, in ten-thousandths.
    pub tranche_share: TenThousandths,
    /// The share p of the rest that is bought in blocks, in ten-thousandths.
    pub fixed_share: TenThousandths,
    /// The price V of what is bought at the hour, in cents per MWh, 0 to 100,000.
    pub variable_price: CentsPerMwh,
    /// Three amounts on top of the blocks' price, each in cents per MWh, 0 to 100,000.
    pub adders: [CentsPerMwh; 3],
}
