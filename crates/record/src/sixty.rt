// Second 60: which seconds 60 are accepted, and the time with second 59.
// A record with a date is accepted by its moment in UTC with second 59. Its fields tell the same without a count of seconds.
ghost use Rattle.std.specs.Prelude.{◌≡◌};
ghost use Rattle.calendar_rules.specs.Calendar.{month_length};
ghost use Rattle.record_rules.specs.Sixty.{sixty_behind59, takes_sixty, up_to59};
ghost use Rattle.record_rules.specs.SixtyByFields.{ends_in_utc, ends_in_local};

use super::Status;
use calendar::date::{Date, days_in_month};
use calendar::time::Time;

// In time-only layouts 60 is accepted when the minute is 59, in any hour of the day: they carry no date that could end a month.
pub(crate) fn behind_59(time: Time) -> bool
    ensures { result ≡ sixty_behind59 time }
{
    time.second == 60 && time.minute == 59 && time.hour <= 23
}

// A record marked UTC is not shifted: 23:59:60 on the last day of its month, which has this many days.
fn ends_in_utc(date: Date, time: Time, days: u8) -> bool
    requires { days ≡ month_length date.year date.month }
    ensures { result ≡ ends_in_utc date time }
{
    time.hour == 23 && date.day == days
}

// Local time is ahead of UTC by an hour, in daylight time by two: a UTC day ends in the local hour 0, or 1.
// In the last hour of a UTC month the local date is the next month's first already.
// On 1.1.1980 that hour lies before the calendar, where 60 stays refused.
fn ends_in_local(daylight: bool, date: Date, time: Time) -> bool
    ensures { result ≡ ends_in_local daylight date time }
{
    time.hour == u8::from(daylight) && date.day == 1 && (date.year != 1980 || date.month != 1)
}

// Whether a record with a date may carry this second 60: the minute is 59, and with second 59 it is the last second of a UTC month.
// False for every other second, and in a month that the calendar does not have. The weekday is not asked for.
pub(crate) fn is_taken(status: Status, date: Date, time: Time) -> bool
    ensures { result ≡ takes_sixty status date time }
{
    if !behind_59(time) {
        return false;
    }
    match days_in_month(date.year, date.month) {
        Ok(days) if status.utc => ends_in_utc(date, time, days),
        Ok(_) => ends_in_local(status.daylight, date, time),
        Err(_) => false,
    }
}

// The calendar's day has no second 60: it is asked for the 59 before it. Every other time stays as it is.
pub(crate) fn up_to_59(time: Time) -> Time
    ensures { result ≡ up_to59 time }
{
    if time.second != 60 {
        return time;
    }
    Time { second: 59, ..time }
}
