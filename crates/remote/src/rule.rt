// The rules for the fields of a command. Reading and writing both ask them.
ghost use Rattle.std.specs.Prelude.{◌≡◌, not};
ghost use Rattle.refusals.specs.Refusals.{◌when◌};
ghost use Rattle.refusals.specs.Numbers.{verdict};
ghost use Rattle.remote_rules.specs.Rule.{moment_refusal, angle_in_range, position_in_range, refusal_of, spelled_well};

use super::{Angle, Command, Moment, Position};
use layouts::coding::pair;
use minutes::is_within_12_hours;
use places::SLOTS;
use record::{DatedLayout, Reception, Record, Status};
use refusals::{Refusal, lowest};
use remote_rules::rows::Form;

// What the rule for a 6021 says of a time, but that seconds end at 59.
fn check_moment(moment: Moment) -> Result<(), Refusal>
    ensures { verdict result ≡ moment_refusal moment }
{
    let status = Status {
        reception: Reception::Radio,
        daylight: false,
        utc: false,
        announced: false,
    };
    let checked = record::rule::check(Record::Dated(
        DatedLayout::L6021,
        status,
        moment.weekday,
        moment.date,
        moment.time,
    ));
    if moment.time.second <= 59 {
        return checked;
    }
    // A 6021 may have a second 60, and a TIM may not: it is out of range, but a weekday is refused first.
    lowest(checked.err(), Some(Refusal::OutOfRange)).map_or(Ok(()), Err)
}

// Below the end of the range, or at it with nothing behind.
fn angle_in_range(top: u16, angle: Angle) -> bool
    ensures { result ≡ angle_in_range top angle }
{
    (angle.degrees < top && angle.minutes <= 59 && angle.fraction <= 99)
        || (angle.degrees == top && angle.minutes == 0 && angle.fraction == 0)
}

fn position_in_range(position: Position) -> bool
    ensures { result ≡ position_in_range position }
{
    angle_in_range(180, position.longitude) && angle_in_range(90, position.latitude)
}

// Refuses what is out of range.
fn check_range(in_range: bool) -> Result<(), Refusal>
    ensures { verdict result ≡ (6 when not in_range) }
{
    if in_range {
        return Ok(());
    }
    Err(Refusal::OutOfRange)
}

// Refuses a command by its rule, with 5, 6, 7 or 8. A status has no more than the 256 numbers of two hex digits.
pub fn check(command: Command) -> Result<(), Refusal>
    ensures { verdict result ≡ refusal_of command }
{
    match command {
        Command::Tim(_, moment) => check_moment(moment),
        Command::Dif(difference) => check_range(is_within_12_hours(difference)),
        Command::Pos(position) => check_range(position_in_range(position)),
        Command::TimAsked(_) | Command::DifAsked | Command::PosAsked => Ok(()),
    }
}

// What only the digits of a difference show: minutes above 59, and a minus before nothing.
pub(crate) fn is_spelled_well(form: Form, digits: [u8; SLOTS]) -> bool
    ensures { result ≡ spelled_well form digits }
{
    let hours = pair(digits[2], digits[3]);
    let minutes = pair(digits[4], digits[5]);
    match form {
        Form::DifPlus => minutes <= 59,
        Form::DifMinus => minutes <= 59 && (0 < hours || 0 < minutes),
        _ => true,
    }
}
