//! The draft and the filing: moved, never copied.
ghost use Rattle.std.specs.Prelude.{◌≡◌};
ghost use Rattle.account.specs.Rules.{amended, drafted, sum_of};

use crate::Refusal;
use crate::limits::MOST_PROJECTION;
use reconciliation::{ProjectedSum, RateUnits};

/// The sum of three monthly projections, not yet filed.
#[derive(Drop)]
pub struct Draft {
    pub(crate) sum: ProjectedSum,
}

/// A filing of an account, to be taken into force or withdrawn: a token that can be let go only once it is spent, its number then 0.
pub struct Filing {
    pub(crate) account: u32,
    pub(crate) number: u32,
    pub(crate) e: RateUnits,
}

// With no `Drop` at all a filing let go would be an error of its type, and not a fact that fails.
impl Drop for Filing {
    fn drop(self)
        requires { self.number ≡ 0 }
    {
        let Filing {
            account: _,
            number: _,
            e: _,
        } = self;
    }
}

impl Draft {
    /// A draft of three monthly projections; refused where one is beyond 10^12, or where their sum is zero.
    pub fn new(first: u64, second: u64, third: u64) -> Result<Draft, Refusal>
        ensures { sum_of result ≡ drafted first second third }
    {
        if first > MOST_PROJECTION || second > MOST_PROJECTION || third > MOST_PROJECTION {
            return Err(Refusal::Projections);
        }
        let sum = ProjectedSum::try_from(first + second + third)?;
        Ok(Draft { sum })
    }

    /// Takes new projections, or refuses and keeps the old sum.
    pub fn amend(&mut self, first: u64, second: u64, third: u64) -> Result<(), Refusal>
        ensures { (result, self.new.sum.units) ≡ amended self.old.sum.units first second third }
    {
        *self = Draft::new(first, second, third)?;
        Ok(())
    }

    /// The projected sum.
    pub fn sum(&self) -> ProjectedSum
        ensures { result ≡ self.now.sum }
    {
        self.sum
    }
}

impl Filing {
    /// Its number in its account, from 1.
    pub fn number(&self) -> u32
        ensures { result ≡ self.now.number }
    {
        self.number
    }

    /// The E that it was filed at.
    pub fn e(&self) -> RateUnits
        ensures { result ≡ self.now.e }
    {
        self.e
    }
}
