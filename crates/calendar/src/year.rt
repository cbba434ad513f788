// The day of the year, 1 to 366.
ghost use Rattle.std.specs.Prelude.{◌≡◌};
ghost use Rattle.refusals.specs.Numbers.{outcome};
ghost use Rattle.calendar_rules.specs.DayOfYear.{day_of_year};

use super::date::{Date, day_number};
use super::month_starts::month_starts;
use refusals::Refusal;

// The day of the year of a date: 1 January is 1; 6 or 7 for a date that the calendar does not have.
pub fn day_of_year(date: Date) -> Result<u16, Refusal>
    ensures { outcome result ≡ day_of_year date }
{
    let day = day_number(date)?;
    let starts = month_starts(date.year);
    Ok((day - starts[0] as u32 + 1) as u16)
}
