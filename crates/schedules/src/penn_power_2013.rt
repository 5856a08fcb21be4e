//! Penn Power's filed sheet for December 2013 to February 2014.
use crate::months::{Month, Name};
use crate::reconciliation_page::ReconciliationPage;
use crate::sheet::Sheet;

/// The hourly class, which bills a quarter of E.
pub const HOURLY: Sheet = Sheet {
    title: "Penn Power, hourly, December 2013 to February 2014",
    tax: 440,
    price: None,
    reconciliation: ReconciliationPage {
        balance: -67_724,
        sales: None,
        projected: 7_005_212,
        e: -967,
        billed: -242,
        gross_up: 1_046_025,
        taxed: -253,
    },
    months: [
        Month {
            name: Name::July,
            year: 2013,
            last: -130_817,
            revenue: 145_156,
            tax: 6_387,
            net: 138_769,
            expenses: 203_224,
            before: -66_362,
            interest: -657,
            end: -67_019,
        },
        Month {
            name: Name::August,
            year: 2013,
            last: -67_019,
            revenue: 146_841,
            tax: 6_461,
            net: 140_380,
            expenses: 104_592,
            before: -102_807,
            interest: -566,
            end: -103_373,
        },
        Month {
            name: Name::September,
            year: 2013,
            last: -103_373,
            revenue: 168_206,
            tax: 7_401,
            net: 160_805,
            expenses: 197_023,
            before: -67_156,
            interest: -568,
            end: -67_724,
        },
    ],
};
