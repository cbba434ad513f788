// What the digits of a reply mean, and the digits of a reply.
ghost use Rattle.std.specs.Prelude.{◌≡◌, ◌+◌, ◌*◌, ◌%◌};
ghost use Rattle.places_rules.specs.Places.{code_value, code_character};
ghost use Rattle.layouts_rules.specs.Coding.{code_at};
ghost use Rattle.leitch_rules.specs.Coding.{date_in, reply_in, digits_out};

use super::Reply;
use calendar::date::Date;
use layouts::coding::{full_year, pair, time_in};
use layouts::slots::ST;
use places::SLOTS;

// Three decimal digits as a number.
fn triple(hundreds: u8, tens: u8, ones: u8) -> u16
    ensures { result ≡ 10 * (10 * (hundreds % 16) + tens % 16) + ones % 16 }
{
    10 * pair(hundreds, tens) as u16 + (ones % 16) as u16
}

fn date_in(digits: [u8; SLOTS]) -> Date
    ensures { result ≡ date_in digits }
{
    Date {
        year: full_year(pair(digits[12], digits[13])),
        month: pair(digits[10], digits[11]),
        day: pair(digits[8], digits[9]),
    }
}

// The character of a status: what its place shows of its four bits.
fn status_in(digits: [u8; SLOTS]) -> u8
    ensures { result ≡ code_character (code_at digits 0) }
{
    let row = [ST];
    let mut shown = [0u8];
    places::render(&row, &digits, &mut shown);
    shown[0]
}

// The four bits of a status: what its place finds in its character, and 0 in a byte that is no hex digit.
fn status_out(character: u8) -> u8
    ensures { result ≡ code_value character }
{
    let row = [ST];
    let shown = [character];
    places::scan(&row, &shown).digits[0]
}

// The reply that digits carry, right or wrong.
pub(crate) fn reply_in(digits: [u8; SLOTS]) -> Reply
    ensures { result ≡ reply_in digits }
{
    Reply {
        time: time_in(digits),
        millisecond: triple(digits[14], digits[15], digits[16]),
        date: date_in(digits),
        day_of_year: triple(digits[17], digits[18], digits[19]),
        weekday: digits[1] % 16,
        status: status_in(digits),
    }
}

// The digits that carry a reply, and 0 in the slots that its row does not use.
#[rattlefmt::skip]
pub(crate) fn digits_out(reply: Reply) -> [u8; SLOTS]
    ensures { result ≡ digits_out reply }
{
    let time = reply.time;
    let date = reply.date;
    let year = date.year % 100;
    let millisecond = reply.millisecond % 1000;
    let day = reply.day_of_year % 1000;
    [
        status_out(reply.status), reply.weekday,
        time.hour / 10, time.hour % 10, time.minute / 10, time.minute % 10, time.second / 10, time.second % 10,
        date.day / 10, date.day % 10, date.month / 10, date.month % 10, (year / 10) as u8, (year % 10) as u8,
        (millisecond / 100) as u8, (millisecond / 10 % 10) as u8, (millisecond % 10) as u8,
        (day / 100) as u8, (day / 10 % 10) as u8, (day % 10) as u8,
        0, 0, 0, 0, 0, 0, 0, 0, 0, 0, 0, 0,
    ]
}
