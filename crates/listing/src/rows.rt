// The rows of the listing: the header, one row for each event of the line, and the count of stray bytes at the end.
ghost use Rattle.std.specs.Prelude.{◌≡◌, ◌++◌, ◌+◌, ◌≤◌, length};
ghost use Rattle.refusals.specs.Refusals.{done};
ghost use Rattle.lent_buffer.specs.Laying.{laid};
ghost use Rattle.listing_rules.specs.Listing.{header_row, dated_kind, time_kind, date_column, time_column, reception_word, season_word, status_column};
ghost use Rattle.listing_rules.specs.Listing.{dated_columns, time_only_columns, columns, refused_row, event_row, stray_row};
ghost use Rattle.listing.specs.Texts.{Room, most_status, most_columns, told_as};
ghost use Rattle.refusals.specs.Numbers.{outcome};

use super::lay;
use super::text::{Text, digit};
use calendar::date::Date;
use calendar::time::Time;
use record::rule::check;
use record::{DatedLayout, Reception, Record, Status, TimeLayout};
use refusals::Refusal;

fn dated_kind(layout: DatedLayout) -> &'static [u8]
    ensures said { result.now ≡ dated_kind layout }
    ensures few { length result.now ≤ 5 }
{
    match layout {
        DatedLayout::L6021 => b"6021",
        DatedLayout::L2000 => b"2000",
        DatedLayout::L5500 => b"5500",
        DatedLayout::L5050 => b"5050",
    }
}

fn time_kind(layout: TimeLayout) -> &'static [u8]
    ensures said { result.now ≡ time_kind layout }
    ensures few { length result.now ≤ 5 }
{
    match layout {
        TimeLayout::T6021 => b"6021t",
        TimeLayout::T5500 => b"5500t",
        TimeLayout::T5050 => b"5050t",
    }
}

fn date_column(text: &mut Text, date: Date)
    requires { Room text.old 10 }
    ensures { text.new ≡ text.old ++ date_column date }
{
    text.four(date.year as u64);
    text.push(b'-');
    text.two(date.month as u64);
    text.push(b'-');
    text.two(date.day as u64);
}

fn time_column(text: &mut Text, time: Time)
    requires { Room text.old 8 }
    ensures { text.new ≡ text.old ++ time_column time }
{
    text.two(time.hour as u64);
    text.push(b':');
    text.two(time.minute as u64);
    text.push(b':');
    text.two(time.second as u64);
}

fn reception_word(reception: Reception) -> &'static [u8]
    ensures said { result.now ≡ reception_word reception }
    ensures few { length result.now ≤ 7 }
{
    match reception {
        Reception::Invalid => b"invalid",
        Reception::Crystal => b"crystal",
        Reception::Radio => b"radio",
        Reception::High => b"high",
    }
}

fn season_word(daylight: bool) -> &'static [u8]
    ensures said { result.now ≡ season_word daylight }
    ensures few { length result.now ≤ 9 }
{
    if daylight { b",daylight" } else { b",standard" }
}

fn status_column(text: &mut Text, status: Status)
    requires { Room text.old most_status }
    ensures said { text.new ≡ text.old ++ status_column status }
    ensures few { length text.new ≤ length text.old + most_status }
{
    text.append(reception_word(status.reception));
    text.append(season_word(status.daylight));
    text.append_if(status.utc, b",utc");
    text.append_if(status.announced, b",announced");
}

fn dated_columns(
    text: &mut Text,
    layout: DatedLayout,
    status: Status,
    weekday: u8,
    date: Date,
    time: Time,
)
    requires { Room text.old most_columns }
    ensures { text.new ≡ text.old ++ dated_columns layout status weekday date time }
{
    text.append(dated_kind(layout));
    text.push(b';');
    date_column(text, date);
    text.push(b';');
    time_column(text, time);
    text.push(b';');
    text.push(digit(weekday as u64));
    text.push(b';');
    status_column(text, status);
    text.push(b'\n');
}

fn time_only_columns(text: &mut Text, layout: TimeLayout, time: Time)
    requires { Room text.old most_columns }
    ensures { text.new ≡ text.old ++ time_only_columns layout time }
{
    text.append(time_kind(layout));
    text.append(b";-;");
    time_column(text, time);
    text.append(b";-;-\n");
}

// The columns behind the place of a telegram: all that its record says.
fn columns(text: &mut Text, rec: Record)
    requires { Room text.old most_columns }
    ensures { text.new ≡ text.old ++ columns rec }
{
    match rec {
        Record::Dated(layout, status, weekday, date, time) => {
            dated_columns(text, layout, status, weekday, date, time)
        }
        Record::TimeOnly(layout, time) => time_only_columns(text, layout, time),
    }
}

// The end of a telegram's row, behind the telegram's place: all that its record says; then all of it is laid.
pub(crate) fn end_with_record(
    text: &mut Text,
    rec: Record,
    out: &mut [u8],
) -> Result<usize, Refusal>
    requires { Room text.old most_columns }
    ensures { laid (done (text.old ++ columns rec)) out.old ≡ (outcome result, out.new) }
{
    columns(text, rec);
    text.lay(out)
}

pub(crate) fn refused_row(start: u64, number: u8, out: &mut [u8]) -> Result<usize, Refusal>
    ensures { laid (done (refused_row start number)) out.old ≡ (outcome result, out.new) }
{
    let mut text = Text::new();
    text.decimal(start);
    text.end_row(b";refused ", number as u64, out)
}

// The first line of the listing; 13 for a buffer that is too short.
pub fn header(out: &mut [u8]) -> Result<usize, Refusal>
    ensures { laid (done header_row) out.old ≡ (outcome result, out.new) }
{
    lay(b"start;kind;date;time;weekday;status\n", out)
}

// The row of an event: where it starts, and the record that was read or the number that it was refused with.
// A record that no telegram could carry has no row: 5 to 8; then 13 for a buffer that is too short.
pub fn row(start: u32, answer: Result<Record, u8>, out: &mut [u8]) -> Result<usize, Refusal>
    ensures { laid (event_row start (told_as answer)) out.old ≡ (outcome result, out.new) }
{
    match answer {
        Ok(rec) => {
            check(rec)?;
            let mut text = Text::new();
            text.number_column(start as u64);
            end_with_record(&mut text, rec, out)
        }
        Err(number) => refused_row(start as u64, number, out),
    }
}

// The last line of the listing: how many bytes were stray; 13 for a buffer that is too short.
pub fn stray_line(stray: u32, out: &mut [u8]) -> Result<usize, Refusal>
    ensures { laid (done (stray_row stray)) out.old ≡ (outcome result, out.new) }
{
    let mut text = Text::new();
    text.end_row(b"stray ", stray as u64, out)
}
