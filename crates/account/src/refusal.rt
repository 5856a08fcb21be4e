//! Why a call of an account is refused.
ghost use Rattle.std.specs.Prelude.{◌≡◌};
ghost use Rattle.account.specs.Refusals.{bill_number, number_of, of_figure};
ghost use Rattle.account.specs.declared.refusal.BillRefusal.TheVariants.{OfPeriod, OfAccount};

use designs::PeriodRefusal;

/// Why a call is refused, with the number that tells it.
#[derive(Clone, Copy, PartialEq, Eq, Debug)]
pub enum Refusal {
    /// The tax or an interest rate is out of range.
    TaxOrInterest = 22,
    /// The account number does not fit 32 bits, or the balance is too large in size.
    NumberOrBalance = 23,
    /// A projection is out of range, or their sum is zero.
    Projections = 24,
    /// The reconciliation rate is too large in size.
    RateTooLarge = 25,
    /// No such kind of cost.
    UnknownKind = 31,
    /// The cost is too large in size.
    AmountTooLarge = 32,
    /// The kind has all the entries that a month can have.
    LineFull = 33,
    /// The month has all the bills that it can have.
    MonthFull = 34,
    /// The bill is too large in size.
    BillTooLarge = 35,
    /// The balance before or after the carrying charge is too large in size.
    BalanceTooLarge = 36,
    /// The account has closed all the months that it can.
    MonthsFull = 37,
    /// The months closed are no whole number of quarters.
    NotQuarterEnd = 41,
    /// A filing pends that has not lapsed.
    AlreadyPending = 42,
    /// Not this account's pending filing.
    NotPending = 43,
    /// Too few closings since the filing.
    TooEarly = 44,
    /// Too many closings since the filing.
    Lapsed = 45,
    /// The open month has a bill.
    MonthBilled = 46,
    /// The account has made all the filings that it can.
    FilingsFull = 47,
}

/// Why a bill is refused: for its period, or by the account.
#[derive(Clone, Copy, PartialEq, Eq, Debug)]
pub enum BillRefusal {
    OfPeriod(PeriodRefusal),
    OfAccount(Refusal),
}

impl Refusal {
    /// The number that tells it.
    pub fn number(self) -> u8
        ensures { result ≡ number_of self }
    {
        // The cast is of this enum alone, so no generic function can make it.
        self as u8
    }
}

impl BillRefusal {
    /// The number that tells it.
    pub fn number(self) -> u8
        ensures { result ≡ bill_number self }
    {
        match self {
            BillRefusal::OfPeriod(refusal) => refusal.number(),
            BillRefusal::OfAccount(refusal) => refusal.number(),
        }
    }
}

// By hand: a `From` that is derived has no contract.
impl From<reconciliation::Refusal> for Refusal {
    ghost from_gives = { λ e r. r ≡ of_figure e };

    fn from(e: reconciliation::Refusal) -> Refusal {
        match e {
            reconciliation::Refusal::TaxOrInterest => Refusal::TaxOrInterest,
            reconciliation::Refusal::Projections => Refusal::Projections,
            reconciliation::Refusal::RateTooLarge => Refusal::RateTooLarge,
        }
    }
}

// By hand: a `From` that is derived has no contract.
impl From<PeriodRefusal> for BillRefusal {
    ghost from_gives = { λ e r. r ≡ OfPeriod e };

    fn from(e: PeriodRefusal) -> BillRefusal {
        BillRefusal::OfPeriod(e)
    }
}
