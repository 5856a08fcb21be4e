//! The upper part of the page of the rate: the supply schedule. What is promised of its lines is what they are where no figure is refused.
ghost use Rattle.std.specs.Prelude.{◌≡◌, IfOk};
ghost use Rattle.schedules.specs.Supply.{beside, block_lines, component_line, fixed_part, rest_lines, supply_lines, through_line, tranche_lines, variable_part};

use crate::comparison::{Comparison, Unit};
use crate::line_name::LineName;
use crate::refused::Refused;
use std::alloc::Global;
use std::io;
use supply::{Block, Seasons, Terms, Tranche};

/// A line as printed: its name and its figure, in cents per MWh.
#[derive(Clone, Copy)]
pub struct Printed {
    pub name: LineName,
    pub price: i64,
}

/// A supply schedule as printed. Shares are in ten-thousandths.
#[derive(Clone, Copy)]
pub struct SupplyPage<'a> {
    pub seasons: Seasons,
    pub tranches: &'a [Tranche],
    pub tranche_average: Printed,
    /// The share of the load that the tranches supply.
    pub tranche_share: i64,
    pub tranche_part: Printed,
    /// How the rest of the load is supplied, if there is a rest.
    pub rest: Option<Rest<'a>>,
    pub cost_component: Printed,
}

/// What the tranches leave of the load.
#[derive(Clone, Copy)]
pub struct Rest<'a> {
    pub supplied: Supplied<'a>,
    pub adders: [i64; 3],
    pub subtotal: Printed,
    pub part: Printed,
}

/// How the rest of the load is bought.
#[derive(Clone, Copy)]
pub enum Supplied<'a> {
    /// At the hour's price alone.
    Hourly(i64),
    /// In blocks and at the hour's price.
    InBlocks(Blocks<'a>),
}

/// What is bought in blocks, and the hour's price beside it.
#[derive(Clone, Copy)]
pub struct Blocks<'a> {
    pub blocks: &'a [Block],
    pub average: Printed,
    /// The share that is bought in blocks.
    pub share: i64,
    pub fixed: Printed,
    pub hourly_price: i64,
    pub variable: Printed,
}

impl Printed {
    /// The line beside what the rules give for it.
    fn beside(self, worked: i64) -> Comparison
        ensures { result ≡ beside self worked }
    {
        Comparison::new(self.name, Unit::DollarsPerMwh, self.price, worked)
    }
}

impl Supplied<'_> {
    /// The fixed and the variable part as printed.
    fn parts(&self) -> (i64, i64)
        ensures { result ≡ (fixed_part self.now, variable_part self.now) }
    {
        match self {
            Supplied::Hourly(price) => (0, *price),
            Supplied::InBlocks(blocks) => (blocks.fixed.price, blocks.variable.price),
        }
    }
}

impl Blocks<'_> {
    /// The average price of the blocks, the fixed part and the variable part.
    pub fn compare(&self) -> Result<[Comparison; 3], Refused>
        ensures { IfOk result (λ lines. lines ≡ block_lines self.now self.now.blocks.now) }
    {
        let average = supply::block_average(self.blocks)?;
        let fixed = supply::share_of(self.average.price, self.share)?;
        let variable = supply::rest_of(self.hourly_price, self.share)?;
        Ok([
            self.average.beside(average),
            self.fixed.beside(fixed),
            self.variable.beside(variable),
        ])
    }
}

impl SupplyPage<'_> {
    /// The lines of the schedule, in the order of the sheet.
    pub fn lines(&self, alloc: Global) -> anyhow::Result<Vec<Comparison>>
        ensures { IfOk result (λ lines. lines.items ≡ supply_lines self.now) }
    {
        // Room for the lines of the rate below them too: a page's list is made by one piece of memory.
        let mut lines = Vec::with_capacity(alloc, 16).map_err(io::Error::from)?;
        lines.extend_from_slice(&self.compare_tranches()?)?;
        let component = self.compare_component()?;
        let Some(rest) = &self.rest else {
            lines.push(component)?;
            return Ok(lines);
        };
        match &rest.supplied {
            Supplied::Hourly(_) => {
                lines.extend_from_slice(&self.compare_rest(rest)?)?;
                lines.push(component)?;
            }
            Supplied::InBlocks(bought) => {
                lines.extend_from_slice(&bought.compare()?)?;
                lines.extend_from_slice(&self.compare_rest(rest)?)?;
                lines.push(component)?;
                lines.push(self.compare_through(rest, bought)?)?;
            }
        }
        Ok(lines)
    }

    /// The average price of the tranches, and their part.
    pub fn compare_tranches(&self) -> Result<[Comparison; 2], Refused>
        ensures { IfOk result (λ lines. lines ≡ tranche_lines self.now self.now.tranches.now) }
    {
        let average = supply::tranche_average(self.tranches, self.seasons)?;
        let part = supply::share_of(self.tranche_average.price, self.tranche_share)?;
        Ok([
            self.tranche_average.beside(average),
            self.tranche_part.beside(part),
        ])
    }

    /// The subtotal of the rest, and its part.
    pub fn compare_rest(&self, rest: &Rest) -> Result<[Comparison; 2], Refused>
        ensures { IfOk result (λ lines. lines ≡ rest_lines self.now rest.now) }
    {
        let (fixed, variable) = rest.supplied.parts();
        let subtotal = supply::block_subtotal(fixed, variable, rest.adders)?;
        let part = supply::rest_of(rest.subtotal.price, self.tranche_share)?;
        Ok([rest.subtotal.beside(subtotal), rest.part.beside(part)])
    }

    /// The cost component.
    pub fn compare_component(&self) -> Result<Comparison, Refused>
        ensures { IfOk result (λ line. line ≡ component_line self.now) }
    {
        let block_part = self.rest.map_or(0, |rest| rest.part.price);
        let component = supply::cost_component(self.tranche_part.price, block_part)?;
        Ok(self.cost_component.beside(component))
    }

    /// The cost component from the auction results straight down, where the rest is bought in blocks.
    pub fn compare_through(&self, rest: &Rest, bought: &Blocks) -> Result<Comparison, Refused>
        ensures { IfOk result (λ line. line ≡ through_line self.now rest.now bought.now self.now.tranches.now bought.now.blocks.now) }
    {
        let terms = Terms {
            seasons: self.seasons,
            tranche_share: self.tranche_share,
            fixed_share: bought.share,
            variable_price: bought.hourly_price,
            adders: rest.adders,
        };
        let lines = supply::supply_schedule(self.tranches, bought.blocks, &terms)?;
        let printed = Printed {
            name: LineName::WorkedThrough,
            price: self.cost_component.price,
        };
        Ok(printed.beside(lines.cost_component))
    }
}
