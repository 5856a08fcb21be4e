//! What the calls of an account answer.
use reconciliation::{Cents, RateUnits};

/// What a bill tells: the period's quantity, and its bill with tax.
#[derive(Clone, Copy, PartialEq, Eq, Debug)]
pub struct Billed {
    pub quantity: u64,
    pub amount: Cents,
}

/// What a closing tells: the months closed, the tax in the month's bills, the bills net of it, the carrying charge, and the new balance.
#[derive(Clone, Copy, PartialEq, Eq, Debug)]
pub struct Closing {
    pub months: u32,
    pub tax: Cents,
    pub net: Cents,
    pub charge: Cents,
    pub balance: Cents,
}

/// What a reading tells: the months closed, the reconciliation rate in force, the pending filing's number, and the balance now.
#[derive(Clone, Copy, PartialEq, Eq, Debug)]
pub struct Reading {
    pub months: u32,
    pub e: RateUnits,
    pub pending: Option<u32>,
    pub balance: Cents,
}
