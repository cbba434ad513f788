// The records that are asked about: a day, a mark and a time.
use calendar::date::{Date, day_number, days_in_month};
use calendar::time::Time;
use record::{DatedLayout, Reception, Record, Status};

// A date and its weekday.
#[derive(Clone, Copy)]
pub(crate) struct Day {
    date: Date,
    weekday: u8,
}

// Daylight time or not, and marked UTC or not.
pub(crate) const MARKS: [(bool, bool); 4] = [
    (false, false),
    (true, false),
    (false, true),
    (true, true),
];

// The full hours at which a UTC month may end: in UTC, and an hour or two later on a local clock. Of each the last second before
// it, 60 and 61 in that second's place, and its own first second on the same day.
pub(crate) const TIMES: [(u8, u8, u8); 12] = [
    (23, 59, 59),
    (23, 59, 60),
    (23, 59, 61),
    (0, 0, 0),
    (0, 59, 59),
    (0, 59, 60),
    (0, 59, 61),
    (1, 0, 0),
    (1, 59, 59),
    (1, 59, 60),
    (1, 59, 61),
    (2, 0, 0),
];

// The weekday that the calendar has for a date. 0, which no record may have, where it has no such date.
fn weekday(date: Date) -> u8 {
    day_number(date).map(calendar::date::weekday).unwrap_or(0)
}

fn day_of(year: u16, month: u8, day: u8) -> Day {
    let date = Date { year, month, day };
    Day {
        date,
        weekday: weekday(date),
    }
}

pub(crate) fn first_day(year: u16, month: u8) -> Day {
    day_of(year, month, 1)
}

// Day 0, which no date has, where the calendar has no such month.
pub(crate) fn last_day(year: u16, month: u8) -> Day {
    day_of(year, month, days_in_month(year, month).unwrap_or(0))
}

// The record with these fields, right or wrong.
pub(crate) fn made(
    day: Day,
    (daylight, utc): (bool, bool),
    (hour, minute, second): (u8, u8, u8),
) -> Record {
    Record::Dated(
        DatedLayout::L6021,
        Status {
            reception: Reception::Radio,
            daylight,
            utc,
            announced: false,
        },
        day.weekday,
        day.date,
        Time {
            hour,
            minute,
            second,
        },
    )
}
