//! Lists of lines that have a weight and a price.
ghost use Rattle.std.specs.Prelude.{◌≡◌, ℕ, ◌≤◌, false};
ghost use Rattle.refusals.specs.Checks.{answer_unless, first};
ghost use Rattle.supply.specs.Kinds.{Kind, Lawful, line_out, lines_checks, some_out, weighted_sum, weights, wrong_count};

use crate::figures::price_out;
use crate::{CentsPerMwh, Refusal};
use rounding::times;

/// A line with a weight, 1 to the most that its kind allows, and a price in cents per MWh, 0 to 100,000.
pub trait Weighted {
    // What a line of this kind means: its weight, its price, and the largest lawful weight.
    ghost kind: { Kind Self };

    // The constant below, as clauses name it.
    ghost MOST: { ℕ };

    /// The largest lawful weight.
    const MOST: u64;

    /// What the price is weighted by.
    fn weight(&self) -> u64
        ensures { result ≡ kind.weight self.now };

    /// In cents per MWh.
    fn price(&self) -> CentsPerMwh
        ensures { result ≡ kind.price self.now };

    // The constant is what the kind means.
    ghost most: { MOST ≡ kind.most };

    // Sums of up to 64 lines stay small.
    ghost small: { kind.most ≤ 10000000 };
}

/// Whether a list has no lines, or over 64.
#[tactic(auto, unfolding(crate::specs::Kinds::wrong_count))]
pub(crate) fn wrong_count<L>(lines: &[L]) -> bool
    ensures { result ≡ wrong_count lines.now }
{
    !(1..=64).contains(&lines.len())
}

/// Whether the weight or the price of a line is out of range.
#[tactic(auto, unfolding(crate::specs::Kinds::line_out))]
fn line_out<L: Weighted>(line: &L) -> bool
    ensures { result ≡ line_out L.Weighted.kind line.now }
{
    !(1..=L::MOST).contains(&line.weight()) || price_out(line.price())
}

/// Whether a line of a list is out of range.
pub(crate) fn some_out<L: Weighted>(lines: &[L]) -> bool
    ensures { result ≡ some_out L.Weighted.kind lines.now }
{
    lines.iter().any(|line| line_out(line))
}

/// The refusal of a list: its count is checked first, then its lines.
pub(crate) fn check_lines<L: Weighted>(lines: &[L]) -> Result<(), Refusal>
    ensures { result ≡ answer_unless (first (lines_checks L.Weighted.kind lines.now)) tt }
{
    if wrong_count(lines) {
        return Err(Refusal::LineCount);
    }
    if some_out(lines) {
        return Err(Refusal::LineOutOfRange);
    }
    Ok(())
}

/// The sum of weight times price over a lawful list.
pub(crate) fn weighted_sum<L: Weighted>(lines: &[L]) -> i128
    requires { Lawful L.Weighted.kind lines.now }
    ensures { result ≡ weighted_sum L.Weighted.kind lines.now }
{
    lines
        .iter()
        .map(|line| times(line.weight(), line.price()))
        .sum()
}

/// The sum of the weights of a lawful list.
#[tactic(auto, unfolding(crate::specs::Kinds::weights))]
pub(crate) fn weights<L: Weighted>(lines: &[L]) -> u64
    requires { Lawful L.Weighted.kind lines.now }
    ensures { result ≡ weights L.Weighted.kind lines.now }
{
    lines.iter().map(|line| line.weight()).sum()
}
