// Cases of dates and times of day.
use super::inputs;
use super::outputs::Shown;
use calendar::date::weekday;
use std::io;

pub(crate) fn day_number(rt: &impl Print, bytes: &[u8]) -> io::Result<()> {
    calendar::date::day_number(inputs::date(bytes))
        .map(|day| (day, weekday(day)))
        .print(rt)
}

pub(crate) fn date(rt: &impl Print, bytes: &[u8]) -> io::Result<()> {
    calendar::date::date_of(inputs::number_32(bytes)).print(rt)
}

pub(crate) fn next_day(rt: &impl Print, bytes: &[u8]) -> io::Result<()> {
    calendar::date::next_day(inputs::date(bytes)).print(rt)
}

// A year of two bytes, and a month.
pub(crate) fn days_in_month(rt: &impl Print, bytes: &[u8]) -> io::Result<()> {
    calendar::date::days_in_month(inputs::number_16(bytes), inputs::byte(bytes, 2)).print(rt)
}

pub(crate) fn day_of_year(rt: &impl Print, bytes: &[u8]) -> io::Result<()> {
    calendar::year::day_of_year(inputs::date(bytes)).print(rt)
}

pub(crate) fn time_in_range(rt: &impl Print, bytes: &[u8]) -> io::Result<()> {
    calendar::time::time_in_range(inputs::time(bytes)).print(rt)
}

pub(crate) fn second_of_day(rt: &impl Print, bytes: &[u8]) -> io::Result<()> {
    calendar::time::second_of_day(inputs::time(bytes)).print(rt)
}

pub(crate) fn next_second(rt: &impl Print, bytes: &[u8]) -> io::Result<()> {
    calendar::time::next_second(inputs::time(bytes)).print(rt)
}
