//! A line of a sheet beside what the rules give for it.
ghost use Rattle.std.specs.Prelude.{◌≡◌};
ghost use Rattle.schedules.specs.Comparisons.{difference_of, differs, line, tally_of};

use crate::line_name::LineName;

/// What a figure counts, which says where its decimal point stands.
#[derive(Clone, Copy)]
pub enum Unit {
    Dollars,
    DollarsPerMwh,
    DollarsPerKwh,
    Factor,
    Kwh,
}

/// A line: which it is, the sheet's figure and the worked one, both without the decimal point.
#[derive(Clone, Copy)]
pub struct Comparison {
    pub name: LineName,
    pub unit: Unit,
    pub sheet: i64,
    pub worked: i64,
}

/// How many lines there are, and how many of them differ.
#[derive(Clone, Copy)]
pub struct Tally {
    pub lines: usize,
    pub differing: usize,
}

impl Comparison {
    /// The line of this name and unit, the sheet's figure beside the worked one.
    pub fn new(name: LineName, unit: Unit, sheet: i64, worked: i64) -> Comparison
        ensures { result ≡ line name unit sheet worked }
    {
        Comparison {
            name,
            unit,
            sheet,
            worked,
        }
    }

    /// The worked figure less the sheet's.
    pub fn difference(&self) -> i128
        ensures { result ≡ difference_of self.now }
    {
        self.worked as i128 - self.sheet as i128
    }

    /// Whether the difference is not zero.
    pub fn differs(&self) -> bool
        ensures { result ≡ differs self.now }
    {
        self.difference() != 0
    }
}

impl Tally {
    /// The tally of these lines.
    pub fn of(comparisons: &[Comparison]) -> Tally
        ensures { result ≡ tally_of comparisons.now }
    {
        Tally {
            lines: comparisons.len(),
            differing: comparisons.iter().filter(|line| line.differs()).count(),
        }
    }
}
