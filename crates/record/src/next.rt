// The next second of a record, date and weekday included; season and status stay as they are.
ghost use Rattle.std.specs.Prelude.{◌≡◌};
ghost use Rattle.calendar_rules.specs.TimeOfDay.{next_second};
ghost use Rattle.calendar_rules.specs.Answers.{next_second_answer};
ghost use Rattle.refusals.specs.Numbers.{outcome};
ghost use Rattle.record_rules.specs.Sixty.{up_to59};
ghost use Rattle.record_rules.specs.Next.{next_second_of};

use super::Record;
use super::rule::check;
use super::sixty::up_to_59;
use calendar::date::next_day;
use calendar::time::{NextSecond, Time};
use refusals::Refusal;

// What is behind a second 60 is what is behind the 59 before it. The calendar is asked about that, and it makes no 60.
fn next_time(time: Time) -> Result<NextSecond, Refusal>
    ensures { next_second_answer result ≡ next_second (up_to59 time) }
{
    calendar::time::next_second(up_to_59(time))
}

// The record one second later. 5 to 8 where it is refused as it stands, 12 behind the calendar's last second, 23:59:59 or 23:59:60.
pub fn next_second(rec: Record) -> Result<Record, Refusal>
    ensures { outcome result ≡ next_second_of rec }
{
    check(rec)?;
    match rec {
        Record::TimeOnly(layout, time) => match next_time(time)? {
            NextSecond::SameDay(next) => Ok(Record::TimeOnly(layout, next)),
            NextSecond::NextDay(next) => Ok(Record::TimeOnly(layout, next)),
        },
        Record::Dated(layout, status, weekday, date, time) => match next_time(time)? {
            NextSecond::SameDay(next) => Ok(Record::Dated(layout, status, weekday, date, next)),
            NextSecond::NextDay(next) => {
                let day = next_day(date)?;
                Ok(Record::Dated(layout, status, weekday % 7 + 1, day, next))
            }
        },
    }
}
