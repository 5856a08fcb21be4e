//! What the tests share.
#[cfg(test)]
use designs::Hour;
use reconciliation::RateUnits;

/// An hour of this energy at this price.
pub fn hour(kwh: u64, price: i64) -> Hour {
    Hour {
        kwh,
        price: RateUnits(price),
    }
}
