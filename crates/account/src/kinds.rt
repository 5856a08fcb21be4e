//! The eight kinds of cost.
ghost use Rattle.std.specs.Prelude.{◌≡◌, MatchResult};
ghost use Rattle.account.specs.Kinds.{kind_number, KindRange};
ghost use Rattle.account.specs.declared.refusal.Refusal.TheVariants.{UnknownKind};

use crate::Refusal;

/// A kind of cost, with its number.
#[derive(Clone, Copy, PartialEq, Eq, Debug)]
pub enum CostKind {
    Startup = 1,
    Supply = 2,
    BlockSpot = 3,
    Pjm = 4,
    Transmission = 5,
    Admin = 6,
    Credit = 7,
    Other = 8,
}

impl TryFrom<u64> for CostKind {
    type Error = Refusal;

    ghost try_from_gives = { λ number result. MatchResult result (λ kind. (kind_number kind ≡ number) × KindRange number) (λ e. (e ≡ UnknownKind) × (KindRange number → ⊥)) };

    /// The kind of this number; refused unless 1 to 8.
    fn try_from(number: u64) -> Result<CostKind, Refusal> {
        match number {
            1 => Ok(CostKind::Startup),
            2 => Ok(CostKind::Supply),
            3 => Ok(CostKind::BlockSpot),
            4 => Ok(CostKind::Pjm),
            5 => Ok(CostKind::Transmission),
            6 => Ok(CostKind::Admin),
            7 => Ok(CostKind::Credit),
            8 => Ok(CostKind::Other),
            _ => Err(Refusal::UnknownKind),
        }
    }
}

impl CostKind {
    /// Its number, 1 to 8.
    pub fn number(self) -> u8
        ensures value { result ≡ kind_number self }
        ensures range { KindRange result }
    {
        // The cast is of this enum alone, so no generic function can make it.
        self as u8
    }
}
