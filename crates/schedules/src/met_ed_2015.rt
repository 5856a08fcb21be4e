//! Metropolitan Edison's filed sheets for June to August 2015.
use crate::line_name::LineName;
use crate::months::{Month, Name};
use crate::rate_page::RatePage;
use crate::reconciliation_page::ReconciliationPage;
use crate::sheet::{PricePage, Sheet};
use crate::supply_page::{Printed, Rest, Supplied, SupplyPage};
use designs::FlatFigures;
use supply::{Season, Seasons, Tranche};

const SEASONS: Seasons = Seasons {
    summer: Season {
        factor: 100,
        months: 3,
    },
    winter: Season {
        factor: 100,
        months: 0,
    },
};

/// The commercial class's auctions of October 2014 (2), January (2) and April 2015 (3).
const COMMERCIAL_TRANCHES: [Tranche; 7] = [
    Tranche {
        count: 2,
        price: 8_656,
    },
    Tranche {
        count: 2,
        price: 8_956,
    },
    Tranche {
        count: 2,
        price: 6_609,
    },
    Tranche {
        count: 2,
        price: 6_653,
    },
    Tranche {
        count: 3,
        price: 6_720,
    },
    Tranche {
        count: 1,
        price: 6_503,
    },
    Tranche {
        count: 1,
        price: 6_515,
    },
];

/// The residential class's auctions of October 2014, January and April 2015, two each.
const RESIDENTIAL_TRANCHES: [Tranche; 6] = [
    Tranche {
        count: 4,
        price: 7_789,
    },
    Tranche {
        count: 4,
        price: 7_682,
    },
    Tranche {
        count: 4,
        price: 6_574,
    },
    Tranche {
        count: 4,
        price: 6_603,
    },
    Tranche {
        count: 5,
        price: 6_653,
    },
    Tranche {
        count: 4,
        price: 6_644,
    },
];

const COMMERCIAL_SUPPLY: SupplyPage = SupplyPage {
    seasons: SEASONS,
    tranches: &COMMERCIAL_TRANCHES,
    tranche_average: Printed {
        name: LineName::AverageFixedPriceTranche,
        price: 7_302,
    },
    tranche_share: 10_000,
    tranche_part: Printed {
        name: LineName::CostFixedPriceTranche,
        price: 7_302,
    },
    rest: None,
    cost_component: Printed {
        name: LineName::WeightedAveragePrice,
        price: 7_302,
    },
};

const RESIDENTIAL_SUPPLY: SupplyPage = SupplyPage {
    seasons: SEASONS,
    tranches: &RESIDENTIAL_TRANCHES,
    tranche_average: Printed {
        name: LineName::AverageFixedPriceTranche,
        price: 6_977,
    },
    tranche_share: 9_500,
    tranche_part: Printed {
        name: LineName::FixedPriceResidentialCost,
        price: 6_628,
    },
    rest: Some(Rest {
        supplied: Supplied::Hourly(3_880),
        adders: [2_000, 0, 0],
        subtotal: Printed {
            name: LineName::VariablePricedHourlyCost,
            price: 5_880,
        },
        part: Printed {
            name: LineName::TotalVariablePricedHourlyCost,
            price: 294,
        },
    }),
    cost_component: Printed {
        name: LineName::WeightedAveragePrice,
        price: 6_922,
    },
};

/// The commercial class.
pub const COMMERCIAL: Sheet = Sheet {
    title: "Metropolitan Edison, commercial, June to August 2015",
    tax: 590,
    price: Some(PricePage {
        supply: COMMERCIAL_SUPPLY,
        rate: RatePage {
            figures: FlatFigures {
                cost: 7_302,
                loss: 10_515,
                adm: 14,
                nits: 0,
            },
            current: 7_692,
            gross_up: 1_062_699,
            current_taxed: 8_174,
            e: 171,
            e_taxed: 182,
            default: 8_356,
        },
    }),
    reconciliation: ReconciliationPage {
        balance: 399_329,
        sales: Some([71_840_570, 78_453_311, 82_840_726]),
        projected: 233_134_607,
        e: 171,
        billed: 171,
        gross_up: 1_062_699,
        taxed: 182,
    },
    months: [
        Month {
            name: Name::January,
            year: 2015,
            last: 598_690,
            revenue: 5_800_699,
            tax: 342_241,
            net: 5_458_458,
            expenses: 6_067_463,
            before: 1_207_695,
            interest: 4_516,
            end: 1_212_211,
        },
        Month {
            name: Name::February,
            year: 2015,
            last: 1_212_211,
            revenue: 6_270_433,
            tax: 369_956,
            net: 5_900_477,
            expenses: 5_809_180,
            before: 1_120_915,
            interest: 5_833,
            end: 1_126_748,
        },
        Month {
            name: Name::March,
            year: 2015,
            last: 1_126_748,
            revenue: 6_400_313,
            tax: 377_618,
            net: 6_022_695,
            expenses: 5_799_020,
            before: 903_074,
            interest: 5_075,
            end: 908_149,
        },
    ],
};

/// The residential class.
pub const RESIDENTIAL: Sheet = Sheet {
    title: "Metropolitan Edison, residential, June to August 2015",
    tax: 590,
    price: Some(PricePage {
        supply: RESIDENTIAL_SUPPLY,
        rate: RatePage {
            figures: FlatFigures {
                cost: 6_922,
                loss: 10_515,
                adm: 14,
                nits: 0,
            },
            current: 7_293,
            gross_up: 1_062_699,
            current_taxed: 7_750,
            e: 87,
            e_taxed: 92,
            default: 7_843,
        },
    }),
    reconciliation: ReconciliationPage {
        balance: 820_266,
        sales: Some([271_889_906, 325_181_405, 346_919_313]),
        projected: 943_990_624,
        e: 87,
        billed: 87,
        gross_up: 1_062_699,
        taxed: 92,
    },
    months: [
        Month {
            name: Name::January,
            year: 2015,
            last: 1_393_364,
            revenue: 25_302_424,
            tax: 1_492_843,
            net: 23_809_581,
            expenses: 26_347_446,
            before: 3_931_229,
            interest: 13_311,
            end: 3_944_540,
        },
        Month {
            name: Name::February,
            year: 2015,
            last: 3_944_540,
            revenue: 28_904_985,
            tax: 1_705_394,
            net: 27_199_591,
            expenses: 29_946_868,
            before: 6_691_817,
            interest: 26_591,
            end: 6_718_408,
        },
        Month {
            name: Name::March,
            year: 2015,
            last: 6_718_408,
            revenue: 30_368_073,
            tax: 1_791_716,
            net: 28_576_357,
            expenses: 26_559_112,
            before: 4_701_163,
            interest: 28_549,
            end: 4_729_712,
        },
    ],
};

/// The hourly class.
pub const HOURLY: Sheet = Sheet {
    title: "Metropolitan Edison, hourly, June to August 2015",
    tax: 590,
    price: None,
    reconciliation: ReconciliationPage {
        balance: 209_738,
        sales: Some([20_353_778, 20_615_325, 21_112_950]),
        projected: 62_082_053,
        e: 338,
        billed: 338,
        gross_up: 1_062_699,
        taxed: 359,
    },
    months: [
        Month {
            name: Name::January,
            year: 2015,
            last: -202_582,
            revenue: 628_114,
            tax: 37_059,
            net: 591_055,
            expenses: 1_072_112,
            before: 278_475,
            interest: 190,
            end: 278_665,
        },
        Month {
            name: Name::February,
            year: 2015,
            last: 278_665,
            revenue: 889_317,
            tax: 52_470,
            net: 836_847,
            expenses: 1_114_165,
            before: 555_983,
            interest: 2_037,
            end: 558_070,
        },
        Month {
            name: Name::March,
            year: 2015,
            last: 558_070,
            revenue: 870_699,
            tax: 51_371,
            net: 819_328,
            expenses: 469_082,
            before: 207_823,
            interest: 1_915,
            end: 209_738,
        },
    ],
};
