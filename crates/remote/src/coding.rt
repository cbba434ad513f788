// What the digits of a command mean, and the digits of a command. A telegram's places are no matter here.
ghost use Rattle.std.specs.Prelude.{◌≡◌};
ghost use Rattle.minutes.specs.Minutes.{signed};
ghost use Rattle.remote_rules.specs.Coding.{status_in, moment_in, minutes_in, longitude_in, latitude_in, position_in, command_in};
ghost use Rattle.remote_rules.specs.Coding.{own_form, tim_digits, status_digits, difference_digits, position_digits, digits_out};

use super::rows::by_hemispheres;
use super::{Angle, Command, EastWest, Moment, NorthSouth, Position};
use layouts::coding::{date_in, pair, time_in};
use minutes::{hours_of, is_minus, minutes_of, signed};
use places::SLOTS;
use record::DatedLayout;
use remote_rules::rows::Form;

// The two characters of the status, the high one first.
fn status_in(digits: [u8; SLOTS]) -> u8
    ensures { result ≡ status_in digits }
{
    16 * (digits[0] % 16) + digits[16] % 16
}

// Time, date and weekday stand in the slots that a 5500 gives them.
fn moment_in(digits: [u8; SLOTS]) -> Moment
    ensures { result ≡ moment_in digits }
{
    Moment {
        time: time_in(digits),
        date: date_in(DatedLayout::L5500, digits),
        weekday: digits[1] % 16,
    }
}

// Hours and minutes stand in the slots of a time.
fn difference_in(minus: bool, digits: [u8; SLOTS]) -> i16
    ensures { result ≡ signed minus (minutes_in digits) }
{
    let time = time_in(digits);
    signed(minus, time.hour, time.minute)
}

fn longitude_in(digits: [u8; SLOTS]) -> Angle
    ensures { result ≡ longitude_in digits }
{
    Angle {
        degrees: 100 * (digits[0] % 16) as u16 + pair(digits[1], digits[2]) as u16,
        minutes: pair(digits[3], digits[4]),
        fraction: pair(digits[5], digits[6]),
    }
}

fn latitude_in(digits: [u8; SLOTS]) -> Angle
    ensures { result ≡ latitude_in digits }
{
    Angle {
        degrees: pair(digits[7], digits[8]) as u16,
        minutes: pair(digits[9], digits[10]),
        fraction: pair(digits[11], digits[12]),
    }
}

fn position_in(east_west: EastWest, north_south: NorthSouth, digits: [u8; SLOTS]) -> Position
    ensures { result ≡ position_in east_west north_south digits }
{
    Position {
        east_west,
        longitude: longitude_in(digits),
        north_south,
        latitude: latitude_in(digits),
    }
}

// The command that a form's digits carry, right or wrong.
pub(crate) fn command_in(form: Form, digits: [u8; SLOTS]) -> Command
    ensures { result ≡ command_in form digits }
{
    match form {
        Form::Tim => Command::Tim(status_in(digits), moment_in(digits)),
        Form::TimAsked => Command::TimAsked(status_in(digits)),
        Form::DifPlus => Command::Dif(difference_in(false, digits)),
        Form::DifMinus => Command::Dif(difference_in(true, digits)),
        Form::DifAsked => Command::DifAsked,
        Form::PosWestNorth => {
            Command::Pos(position_in(EastWest::West, NorthSouth::North, digits))
        }
        Form::PosWestSouth => {
            Command::Pos(position_in(EastWest::West, NorthSouth::South, digits))
        }
        Form::PosEastNorth => {
            Command::Pos(position_in(EastWest::East, NorthSouth::North, digits))
        }
        Form::PosEastSouth => {
            Command::Pos(position_in(EastWest::East, NorthSouth::South, digits))
        }
        Form::PosAsked => Command::PosAsked,
    }
}

// A command's own form.
pub(crate) fn own_form(command: Command) -> Form
    ensures { result ≡ own_form command }
{
    match command {
        Command::Tim(_, _) => Form::Tim,
        Command::TimAsked(_) => Form::TimAsked,
        Command::Dif(difference) if is_minus(difference) => Form::DifMinus,
        Command::Dif(_) => Form::DifPlus,
        Command::DifAsked => Form::DifAsked,
        Command::Pos(position) => by_hemispheres(position.east_west, position.north_south),
        Command::PosAsked => Form::PosAsked,
    }
}

#[rattlefmt::skip]
fn tim_digits(status: u8, moment: Moment) -> [u8; SLOTS]
    ensures { result ≡ tim_digits status moment }
{
    let time = moment.time;
    let date = moment.date;
    let year = date.year % 100;
    [
        status / 16, moment.weekday,
        time.hour / 10, time.hour % 10, time.minute / 10, time.minute % 10, time.second / 10, time.second % 10,
        date.day / 10, date.day % 10, date.month / 10, date.month % 10, 0, 0, (year / 10) as u8, (year % 10) as u8,
        status % 16,
        0, 0, 0, 0, 0, 0, 0, 0, 0, 0, 0, 0, 0, 0, 0,
    ]
}

#[rattlefmt::skip]
fn status_digits(status: u8) -> [u8; SLOTS]
    ensures { result ≡ status_digits status }
{
    [
        status / 16, 0, 0, 0, 0, 0, 0, 0, 0, 0, 0, 0, 0, 0, 0, 0,
        status % 16, 0, 0, 0, 0, 0, 0, 0, 0, 0, 0, 0, 0, 0, 0, 0,
    ]
}

#[rattlefmt::skip]
fn difference_digits(difference: i16) -> [u8; SLOTS]
    ensures { result ≡ difference_digits difference }
{
    let hours = hours_of(difference);
    let minutes = minutes_of(difference);
    [
        0, 0, (hours / 10) as u8, (hours % 10) as u8, minutes / 10, minutes % 10, 0, 0, 0, 0, 0, 0, 0, 0, 0, 0,
        0, 0, 0, 0, 0, 0, 0, 0, 0, 0, 0, 0, 0, 0, 0, 0,
    ]
}

#[rattlefmt::skip]
fn position_digits(position: Position) -> [u8; SLOTS]
    ensures { result ≡ position_digits position }
{
    let longitude = position.longitude;
    let latitude = position.latitude;
    [
        (longitude.degrees / 100 % 10) as u8, (longitude.degrees / 10 % 10) as u8, (longitude.degrees % 10) as u8,
        longitude.minutes / 10, longitude.minutes % 10, longitude.fraction / 10, longitude.fraction % 10,
        (latitude.degrees / 10 % 10) as u8, (latitude.degrees % 10) as u8,
        latitude.minutes / 10, latitude.minutes % 10, latitude.fraction / 10, latitude.fraction % 10,
        0, 0, 0, 0, 0, 0, 0, 0, 0, 0, 0, 0, 0, 0, 0, 0, 0, 0, 0,
    ]
}

// The digits that carry a command, and 0 in the slots that its row does not use.
pub(crate) fn digits_out(command: Command) -> [u8; SLOTS]
    ensures { result ≡ digits_out command }
{
    match command {
        Command::Tim(status, moment) => tim_digits(status, moment),
        Command::TimAsked(status) => status_digits(status),
        Command::Dif(difference) => difference_digits(difference),
        Command::DifAsked => [0; SLOTS],
        Command::Pos(position) => position_digits(position),
        Command::PosAsked => [0; SLOTS],
    }
}
