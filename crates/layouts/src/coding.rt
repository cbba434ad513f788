// What the digits of a layout mean, and the digits of a record. A telegram's places are no matter here.
ghost use Rattle.std.specs.Prelude.{◌≡◌, ◌+◌, ◌*◌, ◌%◌};
ghost use Rattle.layouts_rules.specs.Coding.{reception_at, status_in6021, status_in5500, status_in, status_out6021, status_out5500, status_out};
ghost use Rattle.layouts_rules.specs.Coding.{weekday_in, weekday_out, has_full_year, full_year, year_in, century_out, time_in, date_in, record_in, digits_out};

use super::Layout;
use calendar::date::Date;
use calendar::time::Time;
use places::SLOTS;
use record::rule::table_of_6021;
use record::{DatedLayout, Reception, Record, Status};

fn reception_at(bits: u8) -> Reception
    ensures { result ≡ reception_at bits }
{
    match bits {
        0 => Reception::Invalid,
        1 => Reception::Crystal,
        2 => Reception::Radio,
        _ => Reception::High,
    }
}

// 6021 and 2000: b3 b2 reception, b1 daylight, b0 announced; UTC is b3 of the weekday.
fn status_in_6021(status: u8, weekday: u8) -> Status
    ensures { result ≡ status_in6021 status weekday }
{
    Status {
        reception: reception_at(status / 4 % 4),
        daylight: status / 2 % 2 == 1,
        utc: weekday / 8 % 2 == 1,
        announced: status % 2 == 1,
    }
}

fn status_out_6021(status: Status) -> u8
    ensures { result ≡ status_out6021 status }
{
    4 * status.reception as u8 + 2 * u8::from(status.daylight) + u8::from(status.announced)
}

// 5500 and 5050: b3 UTC, b2 daylight, b1 announced, b0 crystal and not radio.
fn status_in_5500(status: u8) -> Status
    ensures { result ≡ status_in5500 status }
{
    Status {
        reception: if status % 2 == 1 {
            Reception::Crystal
        } else {
            Reception::Radio
        },
        daylight: status / 4 % 2 == 1,
        utc: status / 8 % 2 == 1,
        announced: status / 2 % 2 == 1,
    }
}

fn status_out_5500(status: Status) -> u8
    ensures { result ≡ status_out5500 status }
{
    let crystal = status.reception == Reception::Crystal;
    8 * u8::from(status.utc)
        + 4 * u8::from(status.daylight)
        + 2 * u8::from(status.announced)
        + u8::from(crystal)
}

fn status_in(layout: DatedLayout, status: u8, weekday: u8) -> Status
    ensures { result ≡ status_in layout status weekday }
{
    if table_of_6021(layout) {
        status_in_6021(status, weekday)
    } else {
        status_in_5500(status)
    }
}

fn status_out(layout: DatedLayout, status: Status) -> u8
    ensures { result ≡ status_out layout status }
{
    if table_of_6021(layout) {
        status_out_6021(status)
    } else {
        status_out_5500(status)
    }
}

fn weekday_in(layout: DatedLayout, weekday: u8) -> u8
    ensures { result ≡ weekday_in layout weekday }
{
    if table_of_6021(layout) {
        weekday % 8
    } else {
        weekday
    }
}

fn weekday_out(layout: DatedLayout, status: Status, weekday: u8) -> u8
    ensures { result ≡ weekday_out layout status weekday }
{
    if table_of_6021(layout) {
        weekday % 8 + 8 * u8::from(status.utc)
    } else {
        weekday
    }
}

fn has_full_year(layout: DatedLayout) -> bool
    ensures { result ≡ has_full_year layout }
{
    layout == DatedLayout::L2000
}

// 80 to 99 is 1980 to 1999, and 00 to 79 is 2000 to 2079.
pub fn full_year(year: u8) -> u16
    ensures { result ≡ full_year year }
{
    if year < 80 {
        2000 + year as u16
    } else {
        1900 + year as u16
    }
}

// Two decimal digits as a number. What stands in a slot has four bits.
pub fn pair(tens: u8, ones: u8) -> u8
    ensures { result ≡ 10 * (tens % 16) + ones % 16 }
{
    10 * (tens % 16) + ones % 16
}

fn year_in(layout: DatedLayout, digits: [u8; SLOTS]) -> u16
    ensures { result ≡ year_in layout digits }
{
    let year = pair(digits[14], digits[15]);
    if has_full_year(layout) {
        100 * pair(digits[12], digits[13]) as u16 + year as u16
    } else {
        full_year(year)
    }
}

// The time in the slots that every layout gives it.
pub fn time_in(digits: [u8; SLOTS]) -> Time
    ensures { result ≡ time_in digits }
{
    Time {
        hour: pair(digits[2], digits[3]),
        minute: pair(digits[4], digits[5]),
        second: pair(digits[6], digits[7]),
    }
}

// The date in the slots that a layout gives it.
pub fn date_in(layout: DatedLayout, digits: [u8; SLOTS]) -> Date
    ensures { result ≡ date_in layout digits }
{
    Date {
        year: year_in(layout, digits),
        month: pair(digits[10], digits[11]),
        day: pair(digits[8], digits[9]),
    }
}

// The record that a layout's digits carry, right or wrong.
pub fn record_in(layout: Layout, digits: [u8; SLOTS]) -> Record
    ensures { result ≡ record_in layout digits }
{
    let status = digits[0] % 16;
    let weekday = digits[1] % 16;
    let time = time_in(digits);
    match layout {
        Layout::Dated(dated) => {
            let date = date_in(dated, digits);
            Record::Dated(
                dated,
                status_in(dated, status, weekday),
                weekday_in(dated, weekday),
                date,
                time,
            )
        }
        Layout::TimeOnly(brief) => Record::TimeOnly(brief, time),
    }
}

// The two digits of the century, where the layout carries them.
fn century_out(layout: DatedLayout, year: u16) -> u16
    ensures { result ≡ century_out layout year }
{
    if has_full_year(layout) { year / 100 } else { 0 }
}

// The digits that a record's layout carries, and 0 in the slots that it does not use.
#[rattlefmt::skip]
pub fn digits_out(rec: Record) -> [u8; SLOTS]
    ensures { result ≡ digits_out rec }
{
    match rec {
        Record::Dated(layout, status, weekday, date, time) => {
            let century = century_out(layout, date.year);
            [
                status_out(layout, status), weekday_out(layout, status, weekday),
                time.hour / 10, time.hour % 10, time.minute / 10, time.minute % 10, time.second / 10, time.second % 10,
                date.day / 10, date.day % 10, date.month / 10, date.month % 10,
                (century / 10) as u8, (century % 10) as u8, (date.year % 100 / 10) as u8, (date.year % 100 % 10) as u8,
                0, 0, 0, 0, 0, 0, 0, 0, 0, 0, 0, 0, 0, 0, 0, 0,
            ]
        }
        Record::TimeOnly(_, time) => [
            0, 0,
            time.hour / 10, time.hour % 10, time.minute / 10, time.minute % 10, time.second / 10, time.second % 10,
            0, 0, 0, 0, 0, 0, 0, 0,
            0, 0, 0, 0, 0, 0, 0, 0, 0, 0, 0, 0, 0, 0, 0, 0,
        ],
    }
}
