//! The held hours, and what comes in each of the eight months.
use crate::run::{Month, Part};
use account::CostKind;
use designs::Hour;
use reconciliation::{Cents, RateUnits};

/// The energy held, hour by hour; a flat design does not ask the price.
pub const HELD: [Hour; 6] = [
    Hour {
        kwh: 90_000,
        price: RateUnits(3_100),
    },
    Hour {
        kwh: 100_000,
        price: RateUnits(2_900),
    },
    Hour {
        kwh: 80_001,
        price: RateUnits(2_750),
    },
    Hour {
        kwh: 95_000,
        price: RateUnits(-150),
    },
    Hour {
        kwh: 70_003,
        price: RateUnits(4_000),
    },
    Hour {
        kwh: 85_000,
        price: RateUnits(3_300),
    },
];

/// What comes in the eight months.
pub const MONTHS: [Month; 8] = [
    Month {
        kind: CostKind::Supply,
        amount: Cents(3_800_000),
        first: Part { start: 0, count: 3 },
        second: Part { start: 3, count: 3 },
    },
    Month {
        kind: CostKind::Supply,
        amount: Cents(4_050_000),
        first: Part { start: 0, count: 2 },
        second: Part { start: 3, count: 3 },
    },
    Month {
        kind: CostKind::Pjm,
        amount: Cents(3_999_999),
        first: Part { start: 1, count: 4 },
        second: Part { start: 4, count: 2 },
    },
    Month {
        kind: CostKind::Supply,
        amount: Cents(4_100_001),
        first: Part { start: 0, count: 3 },
        second: Part { start: 3, count: 3 },
    },
    Month {
        kind: CostKind::Transmission,
        amount: Cents(-25_000),
        first: Part { start: 0, count: 6 },
        second: Part { start: 5, count: 1 },
    },
    Month {
        kind: CostKind::Supply,
        amount: Cents(3_700_000),
        first: Part { start: 2, count: 3 },
        second: Part { start: 0, count: 3 },
    },
    Month {
        kind: CostKind::Other,
        amount: Cents(3_650_000),
        first: Part { start: 0, count: 1 },
        second: Part { start: 1, count: 5 },
    },
    Month {
        kind: CostKind::Supply,
        amount: Cents(3_900_000),
        first: Part { start: 3, count: 2 },
        second: Part { start: 0, count: 4 },
    },
];
