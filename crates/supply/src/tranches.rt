//! Tranches won at auction.
ghost use Rattle.supply.specs.Lines.{a_tranche};
ghost use Rattle.std.proofs.Common.{refl, rules};

use crate::{CentsPerMwh, Weighted};

/// A number of tranches won at auction at one price.
#[derive(Clone, Copy, PartialEq, Eq, Debug)]
pub struct Tranche {
    /// 1 to 100.
    pub count: u64,
    /// In cents per MWh, 0 to 100,000.
    pub price: CentsPerMwh,
}

impl Weighted for Tranche {
    ghost kind = { a_tranche };

    ghost MOST = { 100 };

    ghost most = { refl };

    ghost small = { Prim.search rules };

    const MOST: u64 = 100;

    fn weight(&self) -> u64 {
        self.count
    }

    fn price(&self) -> CentsPerMwh {
        self.price
    }
}
