//! The lower part of the page of the rate: from PTC_Current to PTC_Default.
ghost use Rattle.std.specs.Prelude.{◌≡◌, IfOk};
ghost use Rattle.designs.specs.Flat.{rate_in_force};
ghost use Rattle.schedules.specs.Comparisons.{line};
ghost use Rattle.schedules.specs.Rates.{gross_up_of, rate_lines, rate_worked};

use crate::comparison::{Comparison, Unit};
use crate::line_name::LineName;
use crate::refused::Refused;
use designs::{Flat, FlatFigures};
use reconciliation::{ReconciliationRate, TaxRate};
use rounding::round_rate;

/// The figures of a page as printed, in rate units but for the loss factor and the gross-up, which is in millionths.
#[derive(Clone, Copy)]
pub struct RatePage {
    pub figures: FlatFigures,
    /// PTC_Current before tax.
    pub current: i64,
    pub gross_up: i64,
    /// PTC_Current with tax.
    pub current_taxed: i64,
    /// The reconciliation rate E before tax.
    pub e: i64,
    /// E with tax.
    pub e_taxed: i64,
    /// PTC_Default.
    pub default: i64,
}

/// The lines of a page that the rules give.
#[derive(Clone, Copy)]
pub struct RateWorked {
    pub current: i64,
    pub gross_up: i64,
    pub current_taxed: i64,
    pub e_taxed: i64,
    pub default: i64,
}

impl RatePage {
    /// Each line from the figures that the sheet prints above it. What is promised is what the lines are where no figure is refused.
    pub fn worked(&self, tax: TaxRate) -> Result<RateWorked, Refused>
        ensures { IfOk result (λ lines. lines ≡ rate_worked self.now tax.value) }
    {
        Ok(RateWorked {
            current: Flat::new(self.figures)?.ptc_current().0,
            gross_up: gross_up(tax),
            current_taxed: with_tax(self.current, 0, tax)?,
            e_taxed: with_tax(0, self.e, tax)?,
            default: with_tax(self.current, self.e, tax)?,
        })
    }

    /// The lines of the page.
    pub fn compare(&self, tax: TaxRate) -> Result<[Comparison; 6], Refused>
        ensures { IfOk result (λ lines. lines ≡ rate_lines self.now (rate_worked self.now tax.value)) }
    {
        let worked = self.worked(tax)?;
        let factor = gross_up_line(LineName::MultipliedBy, self.gross_up, worked.gross_up);
        Ok([
            per_kwh(LineName::Subtotal, self.current, worked.current),
            factor,
            per_kwh(
                LineName::PtcCurrent,
                self.current_taxed,
                worked.current_taxed,
            ),
            factor,
            per_kwh(LineName::RateTimesTax, self.e_taxed, worked.e_taxed),
            per_kwh(LineName::PtcDefault, self.default, worked.default),
        ])
    }
}

// A name for each unit, said once for the many lines that have it.

/// A line in dollars per kWh.
pub fn per_kwh(name: LineName, sheet: i64, worked: i64) -> Comparison
    ensures { result ≡ line name Unit.DollarsPerKwh sheet worked }
{
    Comparison::new(name, Unit::DollarsPerKwh, sheet, worked)
}

/// The line of the gross-up.
pub fn gross_up_line(name: LineName, sheet: i64, worked: i64) -> Comparison
    ensures { result ≡ line name Unit.Factor sheet worked }
{
    Comparison::new(name, Unit::Factor, sheet, worked)
}

/// 1 ÷ (1 − T) in millionths.
pub fn gross_up(tax: TaxRate) -> i64
    ensures { result ≡ gross_up_of tax.value }
{
    round_rate(10_000_000_000, 10_000 - tax.value()) as i64
}

/// A PTC_Current and an E as printed, with tax: the rate of a flat design that has no other figure.
pub fn with_tax(current: i64, e: i64, tax: TaxRate) -> Result<i64, Refused>
    ensures { IfOk result (λ rate. rate ≡ rate_in_force current e tax.value) }
{
    let flat = Flat::new(FlatFigures {
        cost: current,
        loss: 10_000,
        adm: 0,
        nits: 0,
    })?;
    let e = ReconciliationRate::try_from(e)?;
    Ok(flat.rate(e, tax).0)
}
