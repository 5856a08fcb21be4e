//! Class rate designs: what a period of hours is charged.
#![tactic(auto)]

mod component;
mod flat;
mod hourly;
mod hours;
mod rate_design;
mod refusal;
mod worked;

pub use component::{Component, LossMultiplier, loss_multiplier, rate_component};
pub use flat::{Flat, FlatFigures};
pub use hourly::{Hourly, HourlyFigures};
pub use hours::cutting::cut;
pub use hours::{Hour, Period};
pub use rate_design::{RateDesign, Slack};
pub use refusal::{PeriodRefusal, Refusal};
pub use worked::{WorkedSums, worked_sums};
