//! The page of the months: tax, net, interest and balances.
ghost use Rattle.std.specs.Prelude.{◌≡◌, ◌^◌, ◌≤◌, pos, IfOk, unsigned_abs};
ghost use Rattle.rounding.specs.Rounding.{money_rounded};
ghost use Rattle.schedules.specs.Comparisons.{line};
ghost use Rattle.schedules.specs.Months.{in_cents, month_lines, month_worked};

use crate::comparison::{Comparison, Unit};
use crate::line_name::LineName;
use crate::refused::Refused;
use reconciliation::{
    AnnualRate, Cents, TaxRate, annual_rate, carrying_charge, net, tax, tax_rate,
};
use rounding::round_money;

/// The months that the sheets print.
#[derive(Clone, Copy, Debug)]
pub enum Name {
    January,
    February,
    March,
    May,
    June,
    July,
    August,
    September,
}

/// A month as a sheet prints it, in whole dollars.
#[derive(Clone, Copy)]
pub struct Month {
    pub name: Name,
    pub year: u16,
    /// The balance at its beginning.
    pub last: i32,
    /// What was billed, with tax.
    pub revenue: i32,
    pub tax: i32,
    pub net: i32,
    /// The total of the expenses.
    pub expenses: i32,
    /// The balance before interest.
    pub before: i32,
    pub interest: i32,
    /// The balance at its end.
    pub end: i32,
}

/// The lines of a month that the rules give, in whole dollars.
#[derive(Clone, Copy)]
pub struct MonthWorked {
    pub tax: i64,
    pub net: i64,
    pub before: i64,
    pub interest: i64,
    pub end: i64,
}

/// The rates that a month is worked with.
#[derive(Clone, Copy)]
pub struct Rates {
    pub tax: TaxRate,
    pub under: AnnualRate,
    pub over: AnnualRate,
}

impl Rates {
    /// A tax in ten-thousandths, with interest of 6 percent a year on what was under-collected and 8 percent on what was over-collected.
    pub fn new(tax: i64) -> Result<Rates, Refused>
        ensures { IfOk result (λ rates. (pos rates.tax.value ≡ tax) × (rates.under.value ≡ 600) × (rates.over.value ≡ 800)) }
    {
        Ok(Rates {
            tax: tax_rate(tax)?,
            under: annual_rate(600)?,
            over: annual_rate(800)?,
        })
    }
}

impl Month {
    /// Each line from the figures that the sheet prints above it.
    pub fn worked(&self, rates: Rates) -> MonthWorked
        ensures { result ≡ month_worked self.now rates.tax.value rates.under.value rates.over.value }
    {
        let Rates {
            tax: rate,
            under,
            over,
        } = rates;
        let total = cents(self.revenue);
        let before = cents(self.before);
        let interest = carrying_charge(cents(self.last), before, under, over);
        MonthWorked {
            tax: dollars(i128::from(tax(total, rate).0)),
            net: dollars(i128::from(net(total, rate).0)),
            before: self.last as i64 + self.expenses as i64 - self.net as i64,
            interest: dollars(i128::from(interest.0)),
            end: dollars(before.0 as i128 + interest.0 as i128),
        }
    }

    /// The lines of the month.
    pub fn compare(&self, rates: Rates) -> [Comparison; 5]
        ensures { result ≡ month_lines self.now (month_worked self.now rates.tax.value rates.under.value rates.over.value) }
    {
        let worked = self.worked(rates);
        [
            line(LineName::TaxInRevenues, self.tax, worked.tax),
            line(LineName::RevenuesWithoutTax, self.net, worked.net),
            line(LineName::BalanceBeforeInterest, self.before, worked.before),
            line(LineName::Interest, self.interest, worked.interest),
            line(LineName::BalanceAtEnd, self.end, worked.end),
        ]
    }
}

/// A line in dollars.
fn line(name: LineName, sheet: i32, worked: i64) -> Comparison
    ensures { result ≡ line name Unit.Dollars sheet worked }
{
    Comparison::new(name, Unit::Dollars, i64::from(sheet), worked)
}

/// Whole dollars in cents.
pub fn cents(dollars: i32) -> Cents
    ensures { result.0 ≡ in_cents dollars }
{
    Cents(dollars as i64 * 100)
}

/// Cents in whole dollars.
fn dollars(cents: i128) -> i64
    requires { unsigned_abs cents ≤ 2 ^ 64 }
    ensures { result ≡ money_rounded cents 100 }
{
    round_money(cents, 100) as i64
}
