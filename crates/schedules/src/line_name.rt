//! The names of the lines, as the sheets have them.
use std::fmt;

/// A line that the rules define.
#[derive(Clone, Copy)]
pub enum LineName {
    AverageFixedPriceTranche,
    CostFixedPriceTranche,
    AverageBlockAndSpot,
    FixedPriceResidentialCost,
    VariablePricedHourlyCost,
    TotalVariablePricedHourlyCost,
    BlockAndSpotSubtotal,
    CostBlockAndSpot,
    WeightedAveragePrice,
    WorkedThrough,
    Subtotal,
    MultipliedBy,
    PtcCurrent,
    RateTimesTax,
    PtcDefault,
    ProjectedSales,
    RateBeforeTax,
    GrossUp,
    RateWithTax,
    TaxInRevenues,
    RevenuesWithoutTax,
    BalanceBeforeInterest,
    Interest,
    BalanceAtEnd,
}

impl fmt::Display for LineName {
    fn fmt<W: fmt::Write>(&self, f: &mut fmt::Formatter<W>) -> fmt::Result {
        match self {
            LineName::AverageFixedPriceTranche => f.pad("Total Average Fixed Price Tranche"),
            LineName::CostFixedPriceTranche => f.pad("Total Cost Fixed Price Tranche"),
            LineName::AverageBlockAndSpot => f.pad("Total Average Fixed Price Block & Spot"),
            LineName::FixedPriceResidentialCost => f.pad("Total Fixed Price Residential Cost"),
            LineName::VariablePricedHourlyCost => f.pad("Variable Priced Hourly Residential Cost"),
            LineName::TotalVariablePricedHourlyCost => f.pad(
                "Total Variable Priced Hourly Residential Cost",
            ),
            LineName::BlockAndSpotSubtotal => f.pad("Block & Spot Subtotal"),
            LineName::CostBlockAndSpot => f.pad("Total Cost - Block and Spot"),
            LineName::WeightedAveragePrice => f.pad("Price to Compare Weighted Average Price"),
            LineName::WorkedThrough => f.pad(
                "Cost component, worked through without the printed lines",
            ),
            LineName::Subtotal => f.pad("Subtotal (PTC Current before Gross Receipts Tax)"),
            LineName::MultipliedBy => f.pad("Multiplied by [1/(1-T)]"),
            LineName::PtcCurrent => f.pad("PTC Current"),
            LineName::RateTimesTax => f.pad("E Reconciliation Rate x GRT"),
            LineName::PtcDefault => f.pad("PTC Default"),
            LineName::ProjectedSales => f.pad("Total projected kWh sales"),
            LineName::RateBeforeTax => f.pad("Reconciliation Rate before PA Gross Receipts Tax"),
            LineName::GrossUp => f.pad("PA Gross Receipt Gross-Up [1/(1-T)]"),
            LineName::RateWithTax => f.pad("Reconciliation Rate with PA Gross Receipts Tax"),
            LineName::TaxInRevenues => f.pad("Pa GRT Included in Revenues"),
            LineName::RevenuesWithoutTax => f.pad(
                "Revenues Including E Factor Revenues, Excluding Pa GRT",
            ),
            LineName::BalanceBeforeInterest => f.pad(
                "Cumulative (Over)/Under Collections Before Interest",
            ),
            LineName::Interest => f.pad("Interest for Current Month"),
            LineName::BalanceAtEnd => f.pad("Cumulative (Over)/Under Collections at End of Month"),
        }
    }
}
