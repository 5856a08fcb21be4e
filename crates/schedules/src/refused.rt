//! What stops the program where the engine refuses a figure of a sheet.
use thiserror::Error;

/// A refusal of the engine, told by its number.
#[derive(Clone, Copy, Debug, Error)]
pub enum Refused {
    #[error("schedules: refused {}", .0.number())]
    Supply(#[from] supply::Refusal),
    #[error("schedules: refused {}", .0.number())]
    Design(#[from] designs::Refusal),
    #[error("schedules: refused {}", .0.number())]
    Reconciliation(#[from] reconciliation::Refusal),
}
