// The one rule for the fields of a record: 5, 6, 7, 8 or none, the lowest that holds.
// Reading, writing, advancing, stepping and UTC seconds all ask it.
ghost use Rattle.std.specs.Prelude.{◌≡◌};
ghost use Rattle.refusals.specs.Numbers.{verdict};
ghost use Rattle.record_rules.specs.Rule.{crystal_or_radio, plain_utc, table_can_say, table_of6021, status_allowed, weekday_allowed, time_allowed, dated_refusal, time_alone_refusal, refusal_of};

use super::sixty::{behind_59, is_taken};
use super::{DatedLayout, Reception, Record, Status};
use calendar::date::{Date, day_number};
use calendar::time::{Time, time_in_range};
use refusals::Refusal;

fn is_crystal_or_radio(reception: Reception) -> bool
    ensures { result ≡ crystal_or_radio reception }
{
    matches!(reception, Reception::Crystal | Reception::Radio)
}

// With UTC, 5500 and 5050 can say neither summer nor an announcement.
fn is_plain_utc(status: Status) -> bool
    ensures { result ≡ plain_utc status }
{
    if !status.utc {
        return true;
    }
    if status.daylight {
        return false;
    }
    !status.announced
}

// Whether the status table of 5500 and 5050 has a character for a status.
fn table_can_say(status: Status) -> bool
    ensures { result ≡ table_can_say status }
{
    is_crystal_or_radio(status.reception) && is_plain_utc(status)
}

// 6021 and 2000 have one status table, 5500 and 5050 the other.
pub fn table_of_6021(layout: DatedLayout) -> bool
    ensures { result ≡ table_of6021 layout }
{
    matches!(layout, DatedLayout::L6021 | DatedLayout::L2000)
}

fn status_allowed(layout: DatedLayout, status: Status) -> bool
    ensures { result ≡ status_allowed layout status }
{
    table_of_6021(layout) || table_can_say(status)
}

fn weekday_allowed(weekday: u8) -> bool
    ensures { result ≡ weekday_allowed weekday }
{
    (1..=7).contains(&weekday)
}

// A second 60 is asked about last, as hardly any record has one.
fn time_allowed(status: Status, date: Date, time: Time) -> bool
    ensures { result ≡ time_allowed status date time }
{
    time_in_range(time) || is_taken(status, date, time)
}

fn check_dated(
    layout: DatedLayout,
    status: Status,
    weekday: u8,
    date: Date,
    time: Time,
) -> Result<(), Refusal>
    ensures { verdict result ≡ dated_refusal layout status weekday date time }
{
    if !status_allowed(layout, status) || !weekday_allowed(weekday) {
        return Err(Refusal::StatusOrWeekday);
    }
    if !time_allowed(status, date, time) {
        return Err(Refusal::OutOfRange);
    }
    let day = day_number(date)?;
    if calendar::date::weekday(day) != weekday {
        return Err(Refusal::WeekdayDisagrees);
    }
    Ok(())
}

fn check_time_alone(time: Time) -> Result<(), Refusal>
    ensures { verdict result ≡ time_alone_refusal time }
{
    if time_in_range(time) || behind_59(time) {
        return Ok(());
    }
    Err(Refusal::OutOfRange)
}

// Refuses a record by the rule, with 5, 6, 7 or 8.
pub fn check(rec: Record) -> Result<(), Refusal>
    ensures { verdict result ≡ refusal_of rec }
{
    match rec {
        Record::Dated(layout, status, weekday, date, time) => {
            check_dated(layout, status, weekday, date, time)
        }
        Record::TimeOnly(_, time) => check_time_alone(time),
    }
}
