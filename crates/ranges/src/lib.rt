//! Figures that keep to a range.
#![tactic(auto)]

ghost use Rattle.std.specs.Prelude.{◌≡◌, ◌≤◌, pos, MatchResult};
ghost use Rattle.ranges.specs.Ranges.{Between};

/// A figure from `LOW` to `HIGH`, both included.
#[derive(Clone, Copy, PartialEq, Eq, Debug)]
pub struct Ranged<const LOW: u64, const HIGH: u64> {
    value: u64,
    ghost low: { LOW ≤ value },
    ghost high: { value ≤ HIGH },
}

/// What is told of a figure that is out of its range.
#[derive(Clone, Copy, PartialEq, Eq, Debug)]
pub struct OutOfRange;

impl<const LOW: u64, const HIGH: u64> TryFrom<i64> for Ranged<LOW, HIGH> {
    type Error = OutOfRange;

    ghost try_from_gives = { λ given result. MatchResult result (λ figure. (pos figure.value ≡ given) × Between LOW HIGH given) (λ _. Between LOW HIGH given → ⊥) };

    fn try_from(given: i64) -> Result<Ranged<LOW, HIGH>, OutOfRange> {
        match u64::try_from(given) {
            Ok(value) if (LOW..=HIGH).contains(&value) => Ok(Ranged { value }),
            _ => Err(OutOfRange),
        }
    }
}

impl<const LOW: u64, const HIGH: u64> Ranged<LOW, HIGH> {
    /// The figure as a number.
    pub fn value(self) -> u64
        ensures value { result ≡ self.entry.value }
        ensures high { result ≤ HIGH }
    {
        self.value
    }
}
