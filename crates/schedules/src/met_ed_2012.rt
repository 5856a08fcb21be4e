//! Metropolitan Edison's filed sheet for September to November 2012.
use crate::line_name::LineName;
use crate::months::{Month, Name};
use crate::rate_page::RatePage;
use crate::reconciliation_page::ReconciliationPage;
use crate::sheet::{PricePage, Sheet};
use crate::supply_page::{Blocks, Printed, Rest, Supplied, SupplyPage};
use designs::FlatFigures;
use supply::{Block, Season, Seasons, Tranche};

const SEASONS: Seasons = Seasons {
    summer: Season {
        factor: 106,
        months: 1,
    },
    winter: Season {
        factor: 97,
        months: 2,
    },
};

/// Auctions of May and October 2010, January and March 2011, and January and March 2012.
const TRANCHES: [Tranche; 6] = [
    Tranche {
        count: 4,
        price: 6_855,
    },
    Tranche {
        count: 4,
        price: 6_666,
    },
    Tranche {
        count: 4,
        price: 7_069,
    },
    Tranche {
        count: 3,
        price: 7_009,
    },
    Tranche {
        count: 3,
        price: 5_619,
    },
    Tranche {
        count: 3,
        price: 5_583,
    },
];

/// The block of 48 months, and those of May and October 2011, on and off peak.
const BLOCKS: [Block; 5] = [
    Block {
        mwh: 109_151,
        price: 5_977,
    },
    Block {
        mwh: 17_875,
        price: 6_162,
    },
    Block {
        mwh: 36_725,
        price: 4_528,
    },
    Block {
        mwh: 17_875,
        price: 5_816,
    },
    Block {
        mwh: 24_450,
        price: 4_352,
    },
];

const SUPPLY: SupplyPage = SupplyPage {
    seasons: SEASONS,
    tranches: &TRANCHES,
    tranche_average: Printed {
        name: LineName::AverageFixedPriceTranche,
        price: 6_523,
    },
    tranche_share: 7_500,
    tranche_part: Printed {
        name: LineName::CostFixedPriceTranche,
        price: 4_893,
    },
    rest: Some(Rest {
        supplied: Supplied::InBlocks(Blocks {
            blocks: &BLOCKS,
            average: Printed {
                name: LineName::AverageBlockAndSpot,
                price: 5_528,
            },
            share: 7_100,
            fixed: Printed {
                name: LineName::FixedPriceResidentialCost,
                price: 3_910,
            },
            hourly_price: 3_819,
            variable: Printed {
                name: LineName::TotalVariablePricedHourlyCost,
                price: 1_118,
            },
        }),
        adders: [993, 9, 213],
        subtotal: Printed {
            name: LineName::BlockAndSpotSubtotal,
            price: 6_243,
        },
        part: Printed {
            name: LineName::CostBlockAndSpot,
            price: 1_561,
        },
    }),
    cost_component: Printed {
        name: LineName::WeightedAveragePrice,
        price: 6_453,
    },
};

/// The residential class.
pub const RESIDENTIAL: Sheet = Sheet {
    title: "Metropolitan Edison, residential, September to November 2012",
    tax: 590,
    price: Some(PricePage {
        supply: SUPPLY,
        rate: RatePage {
            figures: FlatFigures {
                cost: 6_453,
                loss: 10_515,
                adm: 21,
                nits: 339,
            },
            current: 7_145,
            gross_up: 1_062_699,
            current_taxed: 7_593,
            e: -1_197,
            e_taxed: -1_272,
            default: 6_322,
        },
    }),
    reconciliation: ReconciliationPage {
        balance: -10_403_566,
        sales: Some([351_474_763, 254_586_318, 263_170_814]),
        projected: 869_231_895,
        e: -1_197,
        billed: -1_197,
        gross_up: 1_062_699,
        taxed: -1_272,
    },
    months: [
        Month {
            name: Name::May,
            year: 2012,
            last: -11_275_090,
            revenue: 21_533_472,
            tax: 1_270_475,
            net: 20_262_997,
            expenses: 20_494_093,
            before: -11_043_994,
            interest: -74_401,
            end: -11_118_395,
        },
        Month {
            name: Name::June,
            year: 2012,
            last: -11_118_395,
            revenue: 22_974_897,
            tax: 1_355_519,
            net: 21_619_378,
            expenses: 24_505_097,
            before: -8_232_676,
            interest: -64_507,
            end: -8_297_183,
        },
        Month {
            name: Name::July,
            year: 2012,
            last: -8_297_183,
            revenue: 25_719_189,
            tax: 1_517_432,
            net: 24_201_757,
            expenses: 22_157_506,
            before: -10_341_434,
            interest: -62_132,
            end: -10_403_566,
        },
    ],
};
