// The rules for the fields of a reply. Reading and writing both ask them.
ghost use Rattle.std.specs.Prelude.{◌≡◌, not};
ghost use Rattle.refusals.specs.Refusals.{◌when◌, ◌else◌};
ghost use Rattle.refusals.specs.Numbers.{verdict};
ghost use Rattle.calendar_rules.specs.Calendar.{date_refusal};
ghost use Rattle.leitch_rules.specs.Rule.{status_listed, weekday_agrees, fields_refusal, day_refusal};

use super::Reply;
use calendar::date::{Date, day_number};
use calendar::time::time_in_range;
use calendar::year::day_of_year;
use refusals::Refusal;

// The ten characters that the manual lists.
fn status_listed(status: u8) -> bool
    ensures { result ≡ status_listed status }
{
    (b'0'..=b'3').contains(&status) || (b'A'..=b'F').contains(&status)
}

// Refuses a date with 6 or 7, or a weekday that is not the date's with 8.
fn check_date(date: Date, weekday: u8) -> Result<(), Refusal>
    ensures { verdict result ≡ (date_refusal date else 8 when not (weekday_agrees weekday date)) }
{
    let day = day_number(date)?;
    if calendar::date::weekday(day) != weekday {
        return Err(Refusal::WeekdayDisagrees);
    }
    Ok(())
}

// Refuses the fields with 5, 6, 7 or 8, the lowest that holds.
pub(crate) fn check_fields(reply: Reply) -> Result<(), Refusal>
    ensures { verdict result ≡ fields_refusal reply }
{
    if !status_listed(reply.status) || !(1..=7).contains(&reply.weekday) {
        return Err(Refusal::StatusOrWeekday);
    }
    if !time_in_range(reply.time) || 999 < reply.millisecond {
        return Err(Refusal::OutOfRange);
    }
    check_date(reply.date, reply.weekday)
}

// Refuses a day of the year that is not the date's.
pub(crate) fn check_day(reply: Reply) -> Result<(), Refusal>
    ensures { verdict result ≡ day_refusal reply }
{
    if day_of_year(reply.date) != Ok(reply.day_of_year) {
        return Err(Refusal::DayOfYearDisagrees);
    }
    Ok(())
}
