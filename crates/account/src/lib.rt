//! A class account: costs, bills, monthly closings, filings and readings, and the laws of every run of them.
#![tactic(auto)]

mod a_run;
mod answers;
mod billing;
mod calendar;
mod closing;
mod costs;
mod figures;
mod filings;
mod in_force;
mod kinds;
mod limits;
mod opening;
mod reading;
mod record;
mod refusal;

pub use a_run::{first_term, worked_months};
pub use answers::{Billed, Closing, Reading};
pub use figures::{CostLine, Figures, Ledger, OpenMonth, Pending, Rate, Terms};
pub use filings::{Draft, Filing};
pub use kinds::CostKind;
pub use opening::Opening;
pub use record::Account;
pub use refusal::{BillRefusal, Refusal};
