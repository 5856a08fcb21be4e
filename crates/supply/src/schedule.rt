//! The lines of a schedule in cents per MWh, one by one and as a whole.
ghost use Rattle.std.specs.Prelude.{◌≡◌, false, IfOk};
ghost use Rattle.refusals.specs.Checks.{answer_unless, first};
ghost use Rattle.supply.specs.Kinds.{AmongPrices};
ghost use Rattle.supply.specs.Lines.{a_block};
ghost use Rattle.supply.specs.Schedule.{LineByLine, block_average_answer, component_answer, rest_answer, schedule_answer, season_weight, share_answer, sheet_checks, subtotal_answer, tranche_average_answer};
ghost use Rattle.supply.specs.Terms.{seasons_out};

use crate::figures::{adders_out, printed_out, seasons_out, share_out, terms_out};
use crate::weighted::{check_lines, some_out, weighted_sum, weights, wrong_count};
use crate::{Block, CentsPerMwh, Refusal, Seasons, TenThousandths, Terms, Tranche};
use rounding::{round_rate, times};

/// The lines of a schedule as printed, in cents per MWh.
#[derive(Clone, Copy, PartialEq, Eq, Debug)]
pub struct SupplyLines {
    /// Line 1.
    pub tranche_average: CentsPerMwh,
    /// Line 2: the share s of line 1.
    pub tranche_part: CentsPerMwh,
    /// Line 3.
    pub block_average: CentsPerMwh,
    /// Line 4: the share p of line 3.
    pub fixed_part: CentsPerMwh,
    /// Line 4: what p leaves of the variable price.
    pub variable_part: CentsPerMwh,
    /// Line 5: line 4 and the adders.
    pub block_subtotal: CentsPerMwh,
    /// Line 6: what s leaves of line 5.
    pub block_part: CentsPerMwh,
    /// Line 7: line 2 + line 6.
    pub cost_component: CentsPerMwh,
}

/// The refusal of a sheet: both lists' counts are checked first, then the lines of both, then the terms.
fn check_sheet(tranches: &[Tranche], blocks: &[Block], terms: &Terms) -> Result<(), Refusal>
    ensures { result ≡ answer_unless (first (sheet_checks tranches.now blocks.now terms.now)) tt }
{
    if wrong_count(tranches) || wrong_count(blocks) {
        return Err(Refusal::LineCount);
    }
    if some_out(tranches) || some_out(blocks) {
        return Err(Refusal::LineOutOfRange);
    }
    if terms_out(terms) {
        return Err(Refusal::TermOutOfRange);
    }
    Ok(())
}

/// The whole schedule.
pub fn supply_schedule(
    tranches: &[Tranche],
    blocks: &[Block],
    terms: &Terms,
) -> Result<SupplyLines, Refusal>
    ensures answer { result ≡ schedule_answer tranches.now blocks.now terms.now }
    ensures in_a_row { IfOk result (LineByLine tranches.now blocks.now terms.now) }
{
    check_sheet(tranches, blocks, terms)?;
    // None of these calls refuses: each line of a lawful sheet is in range of what is worked from it.
    let tranche_average = tranche_average(tranches, terms.seasons).unwrap();
    let tranche_part = share_of(tranche_average, terms.tranche_share).unwrap();
    let block_average = block_average(blocks).unwrap();
    let fixed_part = share_of(block_average, terms.fixed_share).unwrap();
    let variable_part = rest_of(terms.variable_price, terms.fixed_share).unwrap();
    let block_subtotal = block_subtotal(fixed_part, variable_part, terms.adders).unwrap();
    let block_part = rest_of(block_subtotal, terms.tranche_share).unwrap();
    let cost_component = cost_component(tranche_part, block_part).unwrap();
    Ok(SupplyLines {
        tranche_average,
        tranche_part,
        block_average,
        fixed_part,
        variable_part,
        block_subtotal,
        block_part,
        cost_component,
    })
}

/// Line 1: the average price of the tranches, by the seasons' factors.
pub fn tranche_average(tranches: &[Tranche], seasons: Seasons) -> Result<CentsPerMwh, Refusal>
    ensures { result ≡ tranche_average_answer tranches.now seasons }
{
    check_lines(tranches)?;
    if seasons_out(seasons) {
        return Err(Refusal::TermOutOfRange);
    }
    let weighted = season_weight(seasons) * weighted_sum(tranches);
    Ok(round_rate(weighted, 300 * weights(tranches)) as i64)
}

/// Each season's factor by its months.
#[tactic(auto, using(crate::proofs::Steps::seasons_worked), unfolding(crate::specs::Figures::outside, crate::specs::Terms::seasons_out))]
fn season_weight(seasons: Seasons) -> i128
    requires { seasons_out seasons ≡ false }
    ensures { result ≡ season_weight seasons }
{
    let Seasons { summer, winter } = seasons;
    times(summer.months, summer.factor) + times(winter.months, winter.factor)
}

/// Line 3: the average price of the blocks, which lies among their prices.
pub fn block_average(blocks: &[Block]) -> Result<CentsPerMwh, Refusal>
    ensures answer { result ≡ block_average_answer blocks.now }
    ensures among { IfOk result (AmongPrices a_block blocks.now) }
{
    check_lines(blocks)?;
    Ok(round_rate(weighted_sum(blocks), weights(blocks)) as i64)
}

/// Lines 2 and 4: the share of a price.
pub fn share_of(price: CentsPerMwh, share: TenThousandths) -> Result<CentsPerMwh, Refusal>
    ensures { result ≡ share_answer price share }
{
    if printed_out(price) {
        return Err(Refusal::LineOutOfRange);
    }
    if share_out(share) {
        return Err(Refusal::TermOutOfRange);
    }
    Ok(round_rate(share as i128 * price as i128, 10_000) as i64)
}

/// Lines 4 and 6: what the share leaves of a price.
#[tactic(auto, unfolding(crate::specs::Figures::outside, crate::specs::Schedule::rest_of))]
pub fn rest_of(price: CentsPerMwh, share: TenThousandths) -> Result<CentsPerMwh, Refusal>
    ensures { result ≡ rest_answer price share }
{
    // What a share out of range leaves is out of range too.
    share_of(price, 10_000_i64.saturating_sub(share))
}

/// Line 5: the fixed and the variable part with the adders.
#[tactic(auto, unfolding(crate::specs::Figures::outside))]
pub fn block_subtotal(
    fixed: CentsPerMwh,
    variable: CentsPerMwh,
    adders: [CentsPerMwh; 3],
) -> Result<CentsPerMwh, Refusal>
    ensures { result ≡ subtotal_answer fixed variable adders }
{
    if printed_out(fixed) || printed_out(variable) {
        return Err(Refusal::LineOutOfRange);
    }
    if adders_out(&adders) {
        return Err(Refusal::TermOutOfRange);
    }
    Ok(fixed + variable + adders.iter().sum::<i64>())
}

/// Line 7: the cost component.
#[tactic(auto, unfolding(crate::specs::Figures::outside))]
pub fn cost_component(tranche: CentsPerMwh, block: CentsPerMwh) -> Result<CentsPerMwh, Refusal>
    ensures { result ≡ component_answer tranche block }
{
    if printed_out(tranche) || printed_out(block) {
        return Err(Refusal::LineOutOfRange);
    }
    Ok(tranche + block)
}
