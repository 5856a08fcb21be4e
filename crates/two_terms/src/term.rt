//! What a term came to, and what its recovery is judged by.
ghost use Rattle.std.specs.Prelude.{◌≡◌, pos, ◌*ℤ◌};
ghost use Rattle.account.specs.Laws.{bills_allowance, difference, months_allowance, quantity_allowance, rates_allowance};
ghost use Rattle.designs.specs.Flat.{ptc_of};
ghost use Rattle.two_terms.specs.Joined.{joined};

use designs::{Flat, RateDesign, Slack};
use reconciliation::{Cents, RateUnits, ReconciliationRate};
use rounding::times;

/// A filing as it was made: the balance filed, the quantity projected, and E.
#[derive(Clone, Copy)]
pub struct Filed {
    pub balance: Cents,
    pub projected: u64,
    pub e: RateUnits,
}

/// What was billed in a month, or over a term: how many bills, in how many months, of what quantity, and their net of tax.
#[derive(Clone, Copy)]
pub struct Sums {
    pub bills: u32,
    pub months: u32,
    pub quantity: u64,
    pub net: Cents,
}

impl Sums {
    /// These sums and those of a further month.
    pub fn and(self, month: Sums) -> Sums
        ensures { result ≡ joined self month }
    {
        Sums {
            bills: self.bills.saturating_add(month.bills),
            months: self.months.saturating_add(month.months),
            quantity: self.quantity.saturating_add(month.quantity),
            net: Cents(self.net.0.saturating_add(month.net.0)),
        }
    }

    /// How far the bills net of tax are from the base charges and the filed balance, in ten-thousandths of a mil.
    pub fn difference(self, design: &Flat, balance: Cents) -> u128
        ensures { result ≡ difference self.net.0 (pos 10000 *ℤ (pos self.quantity *ℤ ptc_of design.now)) balance.0 }
    {
        let base = 10_000 * times(self.quantity, design.ptc_current().0);
        let aim = base + times(10_000_000, balance.0);
        (times(10_000_000, self.net.0) - aim).unsigned_abs()
    }

    /// The allowance for rounding bills, in half mils.
    pub fn bills_allowance(self, slack: Slack) -> u128
        ensures { result ≡ bills_allowance slack.c self.bills }
    {
        1_000 * (slack.c as u128 * self.bills as u128)
    }

    /// The allowance for rounding each month's tax, in half mils.
    pub fn months_allowance(self) -> u128
        ensures { result ≡ months_allowance self.months }
    {
        1_000 * self.months as u128
    }

    /// The allowance for rounding rates, in half mils.
    pub fn rates_allowance(self, slack: Slack, projected: u64) -> u128
        ensures { result ≡ rates_allowance slack.u self.quantity projected }
    {
        slack.u as u128 * self.quantity as u128 + projected as u128
    }

    /// The allowance for billing another quantity than was projected, in half mils.
    pub fn quantity_allowance(self, e: ReconciliationRate, projected: u64) -> u128
        ensures { result ≡ quantity_allowance e.units self.quantity projected }
    {
        let gap = self.quantity.abs_diff(projected);
        2 * (e.units().unsigned_abs() as u128 * gap as u128)
    }
}
