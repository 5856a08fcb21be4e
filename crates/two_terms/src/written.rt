//! How figures are written: money with two decimals, rates with five, mils with one or four.
ghost use Rattle.std.specs.Prelude.{◌≤◌};

use reconciliation::{Cents, RateUnits};
use std::fmt;

/// An amount in dollars.
#[derive(Clone, Copy)]
pub struct Money(pub Cents);

/// A rate in dollars per kWh.
#[derive(Clone, Copy)]
pub struct PerKwh(pub RateUnits);

/// A number of half mils, in mils.
#[derive(Clone, Copy)]
pub struct HalfMils(pub u128);

/// A number of ten-thousandths of a mil, in mils.
#[derive(Clone, Copy)]
pub struct FineMils(pub u128);

impl fmt::Display for Money {
    fn fmt<W: fmt::Write>(&self, f: &mut fmt::Formatter<W>) -> fmt::Result {
        signed(f, self.0.0, 2)
    }
}

impl fmt::Display for PerKwh {
    fn fmt<W: fmt::Write>(&self, f: &mut fmt::Formatter<W>) -> fmt::Result {
        signed(f, self.0.0, 5)
    }
}

impl fmt::Display for HalfMils {
    fn fmt<W: fmt::Write>(&self, f: &mut fmt::Formatter<W>) -> fmt::Result {
        write!(f, "{}.{}", self.0 / 2, self.0 % 2 * 5)
    }
}

impl fmt::Display for FineMils {
    fn fmt<W: fmt::Write>(&self, f: &mut fmt::Formatter<W>) -> fmt::Result {
        decimal(f, self.0, 4)
    }
}

/// Writes a number with its last `places` digits after the decimal point, and a minus sign before it where it is negative.
fn signed<W: fmt::Write>(f: &mut fmt::Formatter<W>, number: i64, places: u32) -> fmt::Result
    requires { places ≤ 38 }
{
    if number < 0 {
        write!(f, "-")?;
    }
    decimal(f, u128::from(number.unsigned_abs()), places)
}

/// Writes a number with its last `places` digits after the decimal point.
#[tactic(auto, using(rounding::proofs::Tens::ten_some, rounding::proofs::Tens::ten_fits))]
fn decimal<W: fmt::Write>(f: &mut fmt::Formatter<W>, number: u128, places: u32) -> fmt::Result
    requires { places ≤ 38 }
{
    let scale = 10u128.pow(places);
    let width = places as usize;
    write!(f, "{}.{:0width$}", number / scale, number % scale)
}
