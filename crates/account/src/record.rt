//! The account record: figures that are always lawful.
ghost use Rattle.account.specs.Lawful.{Agreed, Kept, Own, Tidy};
ghost use Rattle.reconciliation.specs.Figures.{WithinReach};

use crate::Figures;

/// A class account under any rate design.
#[derive(Drop)]
pub struct Account<D> {
    pub(crate) figures: Figures<D>,
    ghost agreed: { Agreed figures.terms },
    ghost rate: { WithinReach figures.rate.e.0 },
    ghost own: { Own figures.pending },
    ghost kept: { Kept figures.ledger },
    ghost tidy: { Tidy figures.ledger.month },
}
