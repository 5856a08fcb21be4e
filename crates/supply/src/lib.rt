//! The supply schedule: how a default-service cost component is worked from auction results. Prices are in cents per MWh.
#![tactic(auto)]

mod blocks;
mod figures;
mod refusal;
mod schedule;
mod terms;
mod tranches;
mod weighted;

pub use blocks::Block;
pub use refusal::Refusal;
pub use schedule::{
    SupplyLines, block_average, block_subtotal, cost_component, rest_of, share_of, supply_schedule,
    tranche_average,
};
pub use terms::{Season, Seasons, Terms};
pub use tranches::Tranche;
pub use weighted::Weighted;

/// A price, or a line of a schedule, in cents per MWh; in rate units it is the same number.
pub type CentsPerMwh = i64;

/// A share of the load in ten-thousandths.
pub type TenThousandths = i64;

/// A season's factor in hundredths.
pub type Hundredths = i64;
