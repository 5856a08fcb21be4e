//! The plain figures of an account.
use reconciliation::{Cents, RateUnits};

/// One kind's line of the open month: how many costs were entered, and their total.
#[derive(Clone, Copy, PartialEq, Eq, Debug)]
pub struct CostLine {
    pub count: u32,
    pub total: Cents,
}

/// The open month: a line for each kind of cost, and the count, quantity and total of the bills.
#[derive(Clone, Copy, PartialEq, Eq, Debug)]
pub struct OpenMonth {
    pub costs: [CostLine; 8],
    pub bills: u32,
    pub quantity: u64,
    pub billed: Cents,
}

/// What opening fixes for good: the account's number, the tax and the annual interest rates in ten-thousandths.
#[derive(Clone, Copy, PartialEq, Eq, Debug)]
pub struct Terms {
    pub account: u32,
    pub tax: u64,
    pub under: u64,
    pub over: u64,
}

/// The account's own record of its pending filing: its number, its E, the balance filed, and the months closed by then.
#[derive(Clone, Copy, PartialEq, Eq, Debug)]
pub struct Pending {
    pub number: u32,
    pub e: RateUnits,
    pub balance: Cents,
    pub months: u32,
}

/// The rate in force: the design, and the reconciliation rate E.
#[derive(Drop)]
pub struct Rate<D> {
    pub design: D,
    pub e: RateUnits,
}

/// What closings carry on: the last balance, the months closed, the filings made, and the open month.
#[derive(Clone, Copy, PartialEq, Eq, Debug)]
pub struct Ledger {
    pub last: Cents,
    pub months: u32,
    pub filings: u32,
    pub month: OpenMonth,
}

/// Every figure that an account holds.
#[derive(Drop)]
pub struct Figures<D> {
    pub terms: Terms,
    pub rate: Rate<D>,
    pub pending: Option<Pending>,
    pub ledger: Ledger,
}
