//! The page of the reconciliation rate E.
ghost use Rattle.std.specs.Prelude.{◌≡◌, IfOk};
ghost use Rattle.schedules.specs.Pages.{reconciliation_lines};
ghost use Rattle.schedules.specs.Rates.{e_lines, e_worked, sales_line};

use crate::comparison::{Comparison, Unit};
use crate::line_name::LineName;
use crate::months::cents;
use crate::rate_page::{gross_up, gross_up_line, per_kwh, with_tax};
use crate::refused::Refused;
use reconciliation::{ProjectedSum, TaxRate, reconciliation_rate};
use std::alloc::Global;
use std::io;

/// The figures of a page as printed, rates in rate units and the gross-up in millionths.
#[derive(Clone, Copy)]
pub struct ReconciliationPage {
    /// The balance to collect, in whole dollars.
    pub balance: i32,
    /// The kWh sales projected for each of the three months, where the sheet prints them.
    pub sales: Option<[u32; 3]>,
    /// Their total.
    pub projected: u32,
    /// E before tax.
    pub e: i64,
    /// What of E is billed, before tax.
    pub billed: i64,
    pub gross_up: i64,
    /// What of E is billed, with tax.
    pub taxed: i64,
}

/// The lines of a page that the rules give.
#[derive(Clone, Copy)]
pub struct EWorked {
    pub e: i64,
    pub gross_up: i64,
    pub taxed: i64,
}

impl ReconciliationPage {
    /// Each line from the figures that the sheet prints above it. What is promised is what the lines are where no figure is refused.
    #[tactic(auto, unfolding(crate::specs::Rates::e_worked))]
    pub fn worked(&self, tax: TaxRate) -> Result<EWorked, Refused>
        ensures { IfOk result (λ lines. lines ≡ e_worked self.now tax.value) }
    {
        let projected = ProjectedSum::try_from(u64::from(self.projected))?;
        let e = reconciliation_rate(cents(self.balance), projected)?;
        Ok(EWorked {
            e: e.units(),
            gross_up: gross_up(tax),
            taxed: with_tax(0, self.billed, tax)?,
        })
    }

    /// The lines of the page, in the order of the sheet.
    pub fn lines(&self, alloc: Global, tax: TaxRate) -> anyhow::Result<Vec<Comparison>>
        ensures { IfOk result (λ lines. lines.items ≡ reconciliation_lines self.now tax.value) }
    {
        let mut lines = Vec::with_capacity(alloc, 4).map_err(io::Error::from)?;
        if let Some(sales) = self.compare_sales() {
            lines.push(sales)?;
        }
        lines.extend_from_slice(&self.compare(tax)?)?;
        Ok(lines)
    }

    /// The lines of the rates.
    pub fn compare(&self, tax: TaxRate) -> Result<[Comparison; 3], Refused>
        ensures { IfOk result (λ lines. lines ≡ e_lines self.now (e_worked self.now tax.value)) }
    {
        let worked = self.worked(tax)?;
        Ok([
            per_kwh(LineName::RateBeforeTax, self.e, worked.e),
            gross_up_line(LineName::GrossUp, self.gross_up, worked.gross_up),
            per_kwh(LineName::RateWithTax, self.taxed, worked.taxed),
        ])
    }

    /// The line of the projected total, where the sheet prints the months that it is the sum of.
    pub fn compare_sales(&self) -> Option<Comparison>
        ensures { result ≡ sales_line self.now.projected self.now.sales }
    {
        let [first, second, third] = self.sales?;
        Some(Comparison::new(
            LineName::ProjectedSales,
            Unit::Kwh,
            i64::from(self.projected),
            first as i64 + second as i64 + third as i64,
        ))
    }
}
