//! What stops the program where the engine refuses a call.
use thiserror::Error;

/// A refusal of the engine, told by its number.
#[derive(Clone, Copy, Debug, Error)]
pub enum Refused {
    #[error("two_terms: refused {}", .0.number())]
    Account(#[from] account::Refusal),
    #[error("two_terms: refused {}", .0.number())]
    Bill(#[from] account::BillRefusal),
    #[error("two_terms: refused {}", .0.number())]
    Design(#[from] designs::Refusal),
    #[error("two_terms: refused {}", .0.number())]
    Reconciliation(#[from] reconciliation::Refusal),
}
