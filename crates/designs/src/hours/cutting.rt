//! The part of the hours held that a bill is for.
ghost use Rattle.std.specs.Prelude.{◌≡◌, Ok, Err, MatchResult, OnErr};
ghost use Rattle.refusals.specs.Checks.{answer_unless, first};
ghost use Rattle.designs.specs.Cutting.{cut_of, hour_checks, Unlawful};

use crate::{Hour, Period, PeriodRefusal};

/// The period of the `count` hours from `start` on, or why they are no lawful one: a wrong number of hours, then a part that
/// passes the last hour held, then hour by hour too much energy or a price out of range.
pub fn cut(held: &[Hour], start: usize, count: usize) -> Result<Period<'_>, PeriodRefusal>
    ensures value { MatchResult result (λ period. Ok period.hours.now ≡ cut_of held.now start count) (λ e. Err e ≡ cut_of held.now start count) }
    ensures lawful { OnErr result (Unlawful held.now start count) }
{
    if count == 0 || count > 840 {
        return Err(PeriodRefusal::HourCount);
    }
    if start > held.len() || count > held.len() - start {
        return Err(PeriodRefusal::PastLastHour);
    }
    let hours = &held[start..start + count];
    check_hours(hours)?;
    Ok(Period { hours })
}

/// Whether each hour is in range, or why the first that is not is refused.
fn check_hours(hours: &[Hour]) -> Result<(), PeriodRefusal>
    ensures { result ≡ answer_unless (first (hour_checks 0 hours.now)) tt }
{
    for (place, hour) in hours.iter().enumerate() {
        if hour.kwh > 100_000 {
            return Err(PeriodRefusal::EnergyTooLarge { hour: place });
        }
        if !(-100_000..=400_000).contains(&hour.price.0) {
            return Err(PeriodRefusal::PriceOutOfRange { hour: place });
        }
    }
    Ok(())
}
