//! How a figure is written.
ghost use Rattle.std.specs.Prelude.{◌≤◌};

use crate::comparison::Unit;
use std::fmt;

/// A figure without its decimal point, and its unit.
#[derive(Clone, Copy)]
pub struct Figure {
    pub value: i128,
    pub unit: Unit,
}

impl fmt::Display for Figure {
    fn fmt<W: fmt::Write>(&self, f: &mut fmt::Formatter<W>) -> fmt::Result {
        let size = self.value.unsigned_abs();
        if self.value < 0 {
            write!(f, "-")?;
        }
        match self.unit {
            Unit::Dollars | Unit::Kwh => grouped(f, size),
            Unit::DollarsPerMwh => decimal(f, size, 2),
            Unit::DollarsPerKwh => decimal(f, size, 5),
            Unit::Factor => decimal(f, size, 6),
        }
    }
}

/// A number with its last `places` digits after the decimal point, and a comma before each three digits of the rest.
#[tactic(auto, using(rounding::proofs::Tens::ten_some, rounding::proofs::Tens::ten_fits))]
fn decimal<W: fmt::Write>(f: &mut fmt::Formatter<W>, number: u128, places: u32) -> fmt::Result
    requires { places ≤ 38 }
{
    let scale = 10u128.pow(places);
    let width = places as usize;
    grouped(f, number / scale)?;
    write!(f, ".{:0width$}", number % scale)
}

/// A whole number with a comma before each three digits.
fn grouped<W: fmt::Write>(f: &mut fmt::Formatter<W>, number: u128) -> fmt::Result {
    if number < 1_000 {
        return write!(f, "{number}");
    }
    grouped(f, number / 1_000)?;
    let rest = number % 1_000;
    write!(f, ",{rest:03}")
}
