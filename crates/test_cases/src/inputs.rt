// How the bytes of a case are read. A byte that is not there is 0, and a number that names nothing names the first.
use calendar::date::Date;
use calendar::time::Time;
use layouts::Layout;
use line::{PLACES, Reader};
use record::{DatedLayout, Reception, Record, Status, TimeLayout};
use takeover::{KEPT_PLACES, Kept};
use telegram::write::{Choice, Setting};
use trailer::Order;

// What a buffer holds before it is lent.
pub(crate) const UNTOUCHED: u8 = 170;

pub(crate) fn byte(bytes: &[u8], at: usize) -> u8 {
    bytes.get(at).copied().unwrap_or(0)
}

pub(crate) fn flag(bytes: &[u8], at: usize) -> bool {
    byte(bytes, at) != 0
}

// As many of the first bytes as the array has places.
pub(crate) fn array<const N: usize>(bytes: &[u8]) -> [u8; N] {
    let mut array = [0u8; N];
    for (place, byte) in array.iter_mut().zip(bytes) {
        *place = *byte;
    }
    array
}

// Two bytes, the high one first.
pub(crate) fn number_16(bytes: &[u8]) -> u16 {
    u16::from_be_bytes(array(bytes))
}

// Four bytes, the highest first.
pub(crate) fn number_32(bytes: &[u8]) -> u32 {
    u32::from_be_bytes(array(bytes))
}

// The bytes behind the first so many.
pub(crate) fn behind<'a>(bytes: &'a [u8], count: usize) -> &'a [u8] {
    &bytes[count.min(bytes.len())..]
}

// The first so many bytes, or all.
pub(crate) fn first<'a>(bytes: &'a [u8], count: usize) -> &'a [u8] {
    &bytes[..count.min(bytes.len())]
}

pub(crate) fn dated_layout(number: u8) -> DatedLayout {
    match number {
        1 => DatedLayout::L2000,
        2 => DatedLayout::L5500,
        3 => DatedLayout::L5050,
        _ => DatedLayout::L6021,
    }
}

fn time_layout(number: u8) -> TimeLayout {
    match number {
        5 => TimeLayout::T5500,
        6 => TimeLayout::T5050,
        _ => TimeLayout::T6021,
    }
}

// 0 to 3 dated, 4 to 6 time-only.
pub(crate) fn layout(number: u8) -> Layout {
    if 4 <= number {
        return Layout::TimeOnly(time_layout(number));
    }
    Layout::Dated(dated_layout(number))
}

fn reception(number: u8) -> Reception {
    match number {
        1 => Reception::Crystal,
        2 => Reception::Radio,
        3 => Reception::High,
        _ => Reception::Invalid,
    }
}

pub(crate) fn time(bytes: &[u8]) -> Time {
    Time {
        hour: byte(bytes, 0),
        minute: byte(bytes, 1),
        second: byte(bytes, 2),
    }
}

// A year of two bytes, a month, a day.
pub(crate) fn date(bytes: &[u8]) -> Date {
    Date {
        year: number_16(bytes),
        month: byte(bytes, 2),
        day: byte(bytes, 3),
    }
}

fn status(bytes: &[u8]) -> Status {
    Status {
        reception: reception(byte(bytes, 0)),
        daylight: flag(bytes, 1),
        utc: flag(bytes, 2),
        announced: flag(bytes, 3),
    }
}

// A record is handed in as its layout, status, weekday, date and time.
pub(crate) const RECORD_BYTES: usize = 13;

pub(crate) fn rec(bytes: &[u8]) -> Record {
    let layout = byte(bytes, 0);
    let time = time(behind(bytes, 10));
    if 4 <= layout {
        return Record::TimeOnly(time_layout(layout), time);
    }
    Record::Dated(
        dated_layout(layout),
        status(behind(bytes, 1)),
        byte(bytes, 5),
        date(behind(bytes, 6)),
        time,
    )
}

pub(crate) fn order(number: u8) -> Order {
    match number {
        1 => Order::Exchanged,
        _ => Order::AsPrinted,
    }
}

fn setting(number: u8) -> Setting {
    Setting {
        control: number % 2 == 1,
        advance: 2 <= number,
    }
}

// 0 names no setting; 1 to 4 name one without an order, 5 to 8 the same as printed, 9 to 12 exchanged. Of the four the control characters
// are in bit 0 and the advance in bit 1.
pub(crate) fn choice(number: u8) -> Choice {
    match number {
        0 => Choice::Unnamed,
        1..=4 => Choice::Named(setting(number - 1)),
        5..=8 => Choice::NamedIn(setting(number - 5), Order::AsPrinted),
        9..=12 => Choice::NamedIn(setting(number - 9), Order::Exchanged),
        _ => Choice::Unnamed,
    }
}

// A reader is handed in as its places, how many are held, fed, stray, start and order.
pub(crate) const STATE_BYTES: usize = PLACES + 14;

pub(crate) fn reader(bytes: &[u8]) -> Reader {
    Reader {
        held: array(bytes),
        len: byte(bytes, PLACES) as usize,
        fed: number_32(behind(bytes, PLACES + 1)),
        stray: number_32(behind(bytes, PLACES + 5)),
        start: number_32(behind(bytes, PLACES + 9)),
        order: order(byte(bytes, PLACES + 13)),
    }
}

// A kept state is handed in alike, with the places that it had.
pub(crate) fn kept(bytes: &[u8]) -> Kept {
    Kept {
        held: array(bytes),
        len: byte(bytes, KEPT_PLACES) as usize,
        fed: number_32(behind(bytes, KEPT_PLACES + 1)),
        stray: number_32(behind(bytes, KEPT_PLACES + 5)),
        start: number_32(behind(bytes, KEPT_PLACES + 9)),
        order: order(byte(bytes, KEPT_PLACES + 13)),
    }
}
