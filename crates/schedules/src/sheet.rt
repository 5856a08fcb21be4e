//! The figures of a filed sheet, and their comparison, page by page.
ghost use Rattle.std.specs.Prelude.{◌≡◌, ◌≤◌, IfOk, vec_len};
ghost use Rattle.schedules.specs.Pages.{price_lines};

use crate::comparison::Comparison;
use crate::months::{Month, Rates};
use crate::rate_page::RatePage;
use crate::reconciliation_page::ReconciliationPage;
use crate::report::Report;
use crate::supply_page::SupplyPage;
use reconciliation::TaxRate;
use std::alloc::Global;

/// What a sheet prints.
#[derive(Clone, Copy)]
pub struct Sheet<'a> {
    /// Its company, class and quarter.
    pub title: &'a str,
    /// The gross receipts tax T in ten-thousandths.
    pub tax: i64,
    /// Where the class has a flat rate.
    pub price: Option<PricePage<'a>>,
    pub reconciliation: ReconciliationPage,
    pub months: [Month; 3],
}

/// The page of the supply schedule and the rate.
#[derive(Clone, Copy)]
pub struct PricePage<'a> {
    pub supply: SupplyPage<'a>,
    pub rate: RatePage,
}

impl PricePage<'_> {
    /// The lines of the page, in the order of the sheet.
    fn lines(&self, alloc: Global, tax: TaxRate) -> anyhow::Result<Vec<Comparison>>
        ensures { IfOk result (λ lines. lines.items ≡ price_lines self.now tax.value) }
    {
        let mut lines = self.supply.lines(alloc)?;
        lines.extend_from_slice(&self.rate.compare(tax)?)?;
        Ok(lines)
    }
}

impl Sheet<'_> {
    /// Prints the sheet's pages, and adds their lines to the report.
    pub fn compare<R: Print + AllocGlobal>(&self, report: &mut Report<R>) -> anyhow::Result<()>
        ensures { vec_len report.old.lines ≤ vec_len report.new.lines }
    {
        let alloc = report.rt.alloc();
        let rates = Rates::new(self.tax)?;
        println!(report.rt; "")?;
        println!(report.rt; "{}", self.title)?;
        // A heading is printed before the lines below it are worked.
        if let Some(page) = &self.price {
            report.page("Supply schedule and rate", &[])?;
            report.rows(page.lines(alloc, rates.tax)?.as_slice())?;
        }
        report.page("Reconciliation rate E", &[])?;
        report.rows(self.reconciliation.lines(alloc, rates.tax)?.as_slice())?;
        for month in &self.months {
            let heading = format!(in alloc; "The month of {:?} {}", month.name, month.year)?;
            report.page(heading.as_str(), &month.compare(rates))?;
        }
        Ok(())
    }
}
