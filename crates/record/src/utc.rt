// A record's count of seconds, local or UTC as the record is marked, and its UTC seconds.
ghost use Rattle.std.specs.Prelude.{◌≡◌};
ghost use Rattle.record_rules.specs.Moment.{as_marked, in_utc, moment_of};
ghost use Rattle.record_rules.specs.Rule.{is60};
ghost use Rattle.record_rules.specs.Utc.{numbered_as, own_seconds, count_of, utc_seconds};
ghost use Rattle.refusals.specs.Numbers.{outcome};

use super::Record;
use super::next::next_second;
use super::rule::check;
use super::season::{Count, LocalSeconds, UtcSeconds, to_utc};
use calendar::date::{Date, day_number};
use calendar::time::{Time, second_of_day};
use refusals::Refusal;

fn as_marked(utc: bool, seconds: u32) -> Count
    ensures { result ≡ as_marked utc seconds }
{
    if utc {
        return Count::Utc(UtcSeconds(seconds));
    }
    Count::Local(LocalSeconds(seconds))
}

// The seconds of a date and a time of day since 1 January 1980, 00:00; 6 and 7 where the calendar or the day has no such.
fn moment(utc: bool, date: Date, time: Time) -> Result<Count, Refusal>
    ensures { outcome result ≡ moment_of utc date time }
{
    let day = day_number(date)?;
    let second = second_of_day(time)?;
    Ok(as_marked(utc, 86400 * day + second))
}

fn own_seconds(rec: Record) -> Result<Count, Refusal>
    ensures { outcome result ≡ own_seconds rec }
{
    match rec {
        Record::TimeOnly(_, _) => Err(Refusal::NoDate),
        Record::Dated(_, status, _, date, time) => moment(status.utc, date, time),
    }
}

fn is_60(rec: Record) -> bool
    ensures { result ≡ is60 rec }
{
    let (Record::Dated(_, _, _, _, time) | Record::TimeOnly(_, time)) = rec;
    time.second == 60
}

// The record whose number a record has: a second 60 has that of the second that follows it, any other its own.
fn numbered_as(rec: Record) -> Result<Record, Refusal>
    ensures { outcome result ≡ numbered_as rec }
{
    if is_60(rec) {
        return next_second(rec);
    }
    check(rec)?;
    Ok(rec)
}

// A dated record's seconds since 1 January 1980, 00:00, in its own time. 12 for a second 60 with none behind it, 14 where it carries
// no date.
pub fn count(rec: Record) -> Result<Count, Refusal>
    ensures { outcome result ≡ count_of rec }
{
    own_seconds(numbered_as(rec)?)
}

// A count of UTC seconds is not shifted.
fn in_utc(daylight: bool, counted: Count) -> Result<UtcSeconds, Refusal>
    ensures { outcome result ≡ in_utc daylight counted }
{
    match counted {
        Count::Local(local) => to_utc(local, daylight),
        Count::Utc(utc) => Ok(utc),
    }
}

// A dated record's seconds in UTC. 12 before the calendar and behind it, 14 where it carries no date.
pub fn utc_seconds(rec: Record) -> Result<UtcSeconds, Refusal>
    ensures { outcome result ≡ utc_seconds rec }
{
    let counted = count(rec)?;
    match rec {
        Record::TimeOnly(_, _) => Err(Refusal::NoDate),
        Record::Dated(_, status, _, _, _) => in_utc(status.daylight, counted),
    }
}
