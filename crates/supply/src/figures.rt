//! Whether figures are out of range.
ghost use Rattle.std.specs.List.{list_any};
ghost use Rattle.std.specs.Prelude.{◌≡◌};
ghost use Rattle.supply.specs.Figures.{factor_out, price_out, printed_out, share_out};
ghost use Rattle.supply.specs.Terms.{seasons_out, terms_out};

use crate::{CentsPerMwh, Hundredths, Seasons, TenThousandths, Terms};

// Four names over the library's `contains`: each contract cites the range of its name, and says its bounds once.

/// Whether a price as given is out of range.
#[tactic(auto, unfolding(crate::specs::Figures::outside))]
pub(crate) fn price_out(price: CentsPerMwh) -> bool
    ensures { result ≡ price_out price }
{
    !(0..=100_000).contains(&price)
}

/// Whether a price as printed on a line is out of range.
#[tactic(auto, unfolding(crate::specs::Figures::outside))]
pub(crate) fn printed_out(price: CentsPerMwh) -> bool
    ensures { result ≡ printed_out price }
{
    !(0..=1_000_000).contains(&price)
}

/// Whether a share is out of range.
#[tactic(auto, unfolding(crate::specs::Figures::outside))]
pub(crate) fn share_out(share: TenThousandths) -> bool
    ensures { result ≡ share_out share }
{
    !(0..=10_000).contains(&share)
}

/// Whether a season's factor is out of range.
#[tactic(auto, unfolding(crate::specs::Figures::outside))]
fn factor_out(factor: Hundredths) -> bool
    ensures { result ≡ factor_out factor }
{
    !(50..=200).contains(&factor)
}

/// Whether a factor is out of range, or the months do not add to 3.
#[tactic(auto, unfolding(crate::specs::Terms::seasons_out))]
pub(crate) fn seasons_out(seasons: Seasons) -> bool
    ensures { result ≡ seasons_out seasons }
{
    let Seasons { summer, winter } = seasons;
    factor_out(summer.factor)
        || factor_out(winter.factor)
        || summer.months > 3
        || winter.months != 3 - summer.months
}

/// Whether an adder is out of range.
pub(crate) fn adders_out(adders: &[CentsPerMwh]) -> bool
    ensures { result ≡ list_any price_out adders.now }
{
    adders.iter().any(|adder| price_out(*adder))
}

/// Whether a term of a schedule is out of range.
#[tactic(auto, unfolding(crate::specs::Terms::terms_out))]
pub(crate) fn terms_out(terms: &Terms) -> bool
    ensures { result ≡ terms_out terms.now }
{
    share_out(terms.tranche_share)
        || share_out(terms.fixed_share)
        || seasons_out(terms.seasons)
        || price_out(terms.variable_price)
        || adders_out(&terms.adders)
}
