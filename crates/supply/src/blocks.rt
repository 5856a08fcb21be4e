//! Blocks of energy.
ghost use Rattle.supply.specs.Lines.{a_block};
ghost use Rattle.std.proofs.Common.{refl, rules};

use crate::{CentsPerMwh, Weighted};

/// A block of energy bought at one price.
#[derive(Clone, Copy, PartialEq, Eq, Debug)]
pub struct Block {
    /// 1 to 10,000,000.
    pub mwh: u64,
    /// In cents per MWh, 0 to 100,000.
    pub price: CentsPerMwh,
}

impl Weighted for Block {
    ghost kind = { a_block };

    ghost MOST = { 10000000 };

    ghost most = { refl };

    ghost small = { Prim.search rules };

    const MOST: u64 = 10_000_000;

    fn weight(&self) -> u64 {
        self.mwh
    }

    fn price(&self) -> CentsPerMwh {
        self.price
    }
}
