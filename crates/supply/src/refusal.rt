ghost use Rattle.std.specs.Prelude.{◌≡◌};
ghost use Rattle.supply.specs.Refusals.{number_of};

/// Why a schedule or one of its lines is refused, with the number that tells it.
#[derive(Clone, Copy, PartialEq, Eq, Debug)]
pub enum Refusal {
    /// A list has no lines, or over 64.
    LineCount = 71,
    /// A tranche, a block, or a price as printed on a line above is out of range.
    LineOutOfRange = 72,
    /// A share, a factor, the months, the variable price or an adder is out of range.
    TermOutOfRange = 73,
}

impl Refusal {
    /// The number that tells it.
    pub fn number(self) -> u8
        ensures { result ≡ number_of self }
    {
        // The cast is of this enum alone, so no generic function can make it.
        self as u8
    }
}
