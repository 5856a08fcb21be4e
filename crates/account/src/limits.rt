//! The limits of an account, and its calendar. Money is in cents.
// They stand in specs/Limits.antt too, so that no promise follows a constant that is wrong here.

/// A balance is at most this in size.
pub const MOST_BALANCE: u64 = 10_000_000_000_000;

/// A cost is at most this in size.
pub const MOST_AMOUNT: u64 = 100_000_000_000;

/// A kind has at most this many costs a month.
pub const MOST_ENTRIES: u32 = 10_000;

/// A bill is at most this in size.
pub const MOST_BILL: u64 = 1_000_000_000;

/// A month has at most this many bills.
pub const MOST_BILLS: u32 = 1_000_000;

/// An account closes at most this many months.
pub const MOST_MONTHS: u32 = 1_200;

/// An account makes at most this many filings.
pub const MOST_FILINGS: u32 = 1_000_000;

/// A monthly projection is at most this.
pub const MOST_PROJECTION: u64 = 1_000_000_000_000;

/// Filings are made at whole quarters.
pub const MONTHS_BETWEEN_FILINGS: u32 = 3;

/// A filing is taken into force after the second closing since.
pub const CLOSINGS_BEFORE_FORCE: u32 = 2;

/// A filing lapses at the third closing since.
pub const CLOSINGS_TO_LAPSE: u32 = 3;
