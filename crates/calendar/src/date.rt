// Dates, day numbers and weekdays. Day 0 is 1 January 1980.
ghost use Rattle.std.specs.Prelude.{◌≡◌, ◌<◌};
ghost use Rattle.calendar_rules.specs.Calendar.{is_leap, month_length, month_in_range, date_refusal, days_in_month, day_number, month_holding, month_start, date_of, weekday_of, next_day};
ghost use Rattle.refusals.specs.Numbers.{outcome, verdict};

use super::month_starts::month_starts;
pub use calendar_rules::date::Date;
use refusals::Refusal;

// Every fourth year; of the full hundreds, every fourth.
fn is_leap(year: u16) -> bool
    ensures { result ≡ is_leap year }
{
    year % 4 == 0 && (year % 100 != 0 || year % 400 == 0)
}

// How many days a month has. A number that is no month has 31 here: the callers ask for the range.
fn month_length(year: u16, month: u8) -> u8
    ensures { result ≡ month_length year month }
{
    match month {
        2 if is_leap(year) => 29,
        2 => 28,
        4 | 6 | 9 | 11 => 30,
        _ => 31,
    }
}

// Whether the calendar has this month.
fn month_in_range(year: u16, month: u8) -> bool
    ensures { result ≡ month_in_range year month }
{
    (1980..=2079).contains(&year) && (1..=12).contains(&month)
}

// Refuses a date that the calendar does not have.
fn check(date: Date) -> Result<(), Refusal>
    ensures { verdict result ≡ date_refusal date }
{
    if !month_in_range(date.year, date.month) || !(1..=31).contains(&date.day) {
        return Err(Refusal::OutOfRange);
    }
    if month_length(date.year, date.month) < date.day {
        return Err(Refusal::NoSuchDay);
    }
    Ok(())
}

// How many days a month of the calendar has; 6 for a month or year out of range.
pub fn days_in_month(year: u16, month: u8) -> Result<u8, Refusal>
    ensures { outcome result ≡ days_in_month year month }
{
    if !month_in_range(year, month) {
        return Err(Refusal::OutOfRange);
    }
    Ok(month_length(year, month))
}

// The day number of a date, from 1 January 1980 as 0; 6 or 7 for a date that the calendar does not have.
pub fn day_number(date: Date) -> Result<u32, Refusal>
    ensures { outcome result ≡ day_number date }
{
    check(date)?;
    let starts = month_starts(date.year);
    let first = starts[date.month as usize - 1];
    Ok(first as u32 + (date.day as u32 - 1))
}

// A month by its place in the table, with its first day's number.
#[derive(Clone, Copy)]
struct Month {
    index: u32,
    first: u32,
}

// The month that holds a day: the one before the first of its year that begins later. Each four years have 1,461 days, and the first is the leap year.
fn month_holding(day: u32) -> Month
    requires { day < 36525 }
    ensures { (result.index ≡ month_holding day) × (result.first ≡ month_start (month_holding day)) }
{
    let years = 4 * day / 1461;
    let starts = month_starts((1980 + years) as u16);
    let behind = starts
        .iter()
        .position(|start| day < *start as u32)
        .unwrap_or(12);
    let month = behind - 1;
    Month {
        index: 12 * years + month as u32,
        first: starts[month] as u32,
    }
}

// The date of a day number; 12 for a day outside the calendar.
pub fn date_of(day: u32) -> Result<Date, Refusal>
    ensures { outcome result ≡ date_of day }
{
    if 36525 <= day {
        return Err(Refusal::OutsideCalendar);
    }
    let month = month_holding(day);
    Ok(Date {
        year: (1980 + month.index / 12) as u16,
        month: (month.index % 12 + 1) as u8,
        day: (day - month.first + 1) as u8,
    })
}

// The weekday of a day number: 1 is Monday and 7 is Sunday. The week goes on beyond the calendar, so every day number has a weekday.
pub fn weekday(day: u32) -> u8
    ensures { result ≡ weekday_of day }
{
    ((day % 7 + 1) % 7 + 1) as u8
}

// The day after; 6 or 7 for a date that the calendar does not have, 12 after 31.12.2079.
pub fn next_day(date: Date) -> Result<Date, Refusal>
    ensures { outcome result ≡ next_day date }
{
    check(date)?;
    if date.day < month_length(date.year, date.month) {
        return Ok(Date {
            year: date.year,
            month: date.month,
            day: date.day + 1,
        });
    }
    if date.month < 12 {
        return Ok(Date {
            year: date.year,
            month: date.month + 1,
            day: 1,
        });
    }
    if date.year < 2079 {
        return Ok(Date {
            year: date.year + 1,
            month: 1,
            day: 1,
        });
    }
    Err(Refusal::OutsideCalendar)
}
