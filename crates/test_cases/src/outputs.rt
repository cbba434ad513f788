// How an outcome is printed: numbers, each with a space behind it. A refusal is its number, and anything else is 0 and its values.
use board::{Parity, of_6036, of_6038};
use calendar::date::Date;
use calendar::time::{NextSecond, Time};
use clock::Stepped;
use layouts::Layout;
use leitch::Reply;
use line::{Event, Reader};
use record::season::{Count, UtcSeconds};
use record::{DatedLayout, Reception, Record, Status, TimeLayout};
use refusals::Refusal;
use requests::{Asked, Request};
use std::io;
use takeover::Kept;
use trailer::Order;

// What stands for an outcome where a case asks for more bytes than there are.
const NO_SUCH_ROOM: u8 = 255;

// What is printed as numbers.
pub(crate) trait Shown {
    fn print<P: Print>(&self, rt: &P) -> io::Result<()>;
}

impl Shown for u8 {
    fn print<P: Print>(&self, rt: &P) -> io::Result<()> {
        print!(rt; "{self} ")
    }
}

impl Shown for u16 {
    fn print<P: Print>(&self, rt: &P) -> io::Result<()> {
        print!(rt; "{self} ")
    }
}

impl Shown for u32 {
    fn print<P: Print>(&self, rt: &P) -> io::Result<()> {
        print!(rt; "{self} ")
    }
}

impl Shown for u64 {
    fn print<P: Print>(&self, rt: &P) -> io::Result<()> {
        print!(rt; "{self} ")
    }
}

impl Shown for usize {
    fn print<P: Print>(&self, rt: &P) -> io::Result<()> {
        print!(rt; "{self} ")
    }
}

impl Shown for bool {
    fn print<P: Print>(&self, rt: &P) -> io::Result<()> {
        u8::from(*self).print(rt)
    }
}

// No number.
impl Shown for () {
    fn print<P: Print>(&self, _rt: &P) -> io::Result<()> {
        Ok(())
    }
}

impl<A: Shown, B: Shown> Shown for (A, B) {
    fn print<P: Print>(&self, rt: &P) -> io::Result<()> {
        self.0.print(rt)?;
        self.1.print(rt)
    }
}

impl<'a, T: Shown> Shown for &'a [T] {
    fn print<P: Print>(&self, rt: &P) -> io::Result<()> {
        for each in *self {
            each.print(rt)?;
        }
        Ok(())
    }
}

impl<T: Shown> Shown for Option<T> {
    fn print<P: Print>(&self, rt: &P) -> io::Result<()> {
        match self {
            Some(value) => value.print(rt),
            None => NO_SUCH_ROOM.print(rt),
        }
    }
}

impl Shown for Refusal {
    fn print<P: Print>(&self, rt: &P) -> io::Result<()> {
        self.number().print(rt)
    }
}

impl<T: Shown> Shown for Result<T, Refusal> {
    fn print<P: Print>(&self, rt: &P) -> io::Result<()> {
        match self {
            Ok(value) => {
                0u8.print(rt)?;
                value.print(rt)
            }
            Err(refusal) => refusal.print(rt),
        }
    }
}

impl Shown for Date {
    fn print<P: Print>(&self, rt: &P) -> io::Result<()> {
        self.year.print(rt)?;
        self.month.print(rt)?;
        self.day.print(rt)
    }
}

impl Shown for Time {
    fn print<P: Print>(&self, rt: &P) -> io::Result<()> {
        self.hour.print(rt)?;
        self.minute.print(rt)?;
        self.second.print(rt)
    }
}

// Whether it belongs to the next day, and its time.
impl Shown for NextSecond {
    fn print<P: Print>(&self, rt: &P) -> io::Result<()> {
        match self {
            NextSecond::SameDay(time) => (false, *time).print(rt),
            NextSecond::NextDay(time) => (true, *time).print(rt),
        }
    }
}

impl Shown for UtcSeconds {
    fn print<P: Print>(&self, rt: &P) -> io::Result<()> {
        self.0.print(rt)
    }
}

// Whether it is UTC, and the count.
impl Shown for Count {
    fn print<P: Print>(&self, rt: &P) -> io::Result<()> {
        match self {
            Count::Local(seconds) => (false, seconds.0).print(rt),
            Count::Utc(seconds) => (true, *seconds).print(rt),
        }
    }
}

impl Shown for DatedLayout {
    fn print<P: Print>(&self, rt: &P) -> io::Result<()> {
        let number: u16 = match self {
            DatedLayout::L6021 => 6021,
            DatedLayout::L2000 => 2000,
            DatedLayout::L5500 => 5500,
            DatedLayout::L5050 => 5050,
        };
        number.print(rt)
    }
}

// The time-only layouts are printed with a 1 in front.
impl Shown for TimeLayout {
    fn print<P: Print>(&self, rt: &P) -> io::Result<()> {
        let number: u16 = match self {
            TimeLayout::T6021 => 16021,
            TimeLayout::T5500 => 15500,
            TimeLayout::T5050 => 15050,
        };
        number.print(rt)
    }
}

impl Shown for Layout {
    fn print<P: Print>(&self, rt: &P) -> io::Result<()> {
        match self {
            Layout::Dated(layout) => layout.print(rt),
            Layout::TimeOnly(layout) => layout.print(rt),
        }
    }
}

// 0 for none, 1 for the crystal, 2 for radio, 3 for radio of high quality.
impl Shown for Reception {
    fn print<P: Print>(&self, rt: &P) -> io::Result<()> {
        (*self as u8).print(rt)
    }
}

impl Shown for Status {
    fn print<P: Print>(&self, rt: &P) -> io::Result<()> {
        self.reception.print(rt)?;
        self.daylight.print(rt)?;
        self.utc.print(rt)?;
        self.announced.print(rt)
    }
}

// Its layout, and its fields in the order of their declaration.
impl Shown for Record {
    fn print<P: Print>(&self, rt: &P) -> io::Result<()> {
        match self {
            Record::Dated(layout, status, weekday, date, time) => {
                layout.print(rt)?;
                status.print(rt)?;
                weekday.print(rt)?;
                date.print(rt)?;
                time.print(rt)
            }
            Record::TimeOnly(layout, time) => {
                layout.print(rt)?;
                time.print(rt)
            }
        }
    }
}

// What the step answers, and the clock that is left.
impl Shown for Stepped {
    fn print<P: Print>(&self, rt: &P) -> io::Result<()> {
        self.answer.print(rt)?;
        self.clock.rec.print(rt)
    }
}

// 0 for none, 1 for even, 2 for odd.
impl Shown for Parity {
    fn print<P: Print>(&self, rt: &P) -> io::Result<()> {
        (*self as u8).print(rt)
    }
}

impl Shown for of_6036::Parameter {
    fn print<P: Print>(&self, rt: &P) -> io::Result<()> {
        self.utc.print(rt)?;
        self.data_bits.print(rt)?;
        self.parity.print(rt)?;
        self.stop_bits.print(rt)?;
        self.baud.print(rt)
    }
}

impl Shown for of_6038::Parameter {
    fn print<P: Print>(&self, rt: &P) -> io::Result<()> {
        self.data_bits.print(rt)?;
        self.parity.print(rt)?;
        self.stop_bits.print(rt)?;
        self.baud.print(rt)
    }
}

// The fields of a reply in the order of their declaration.
impl Shown for Reply {
    fn print<P: Print>(&self, rt: &P) -> io::Result<()> {
        self.time.print(rt)?;
        self.millisecond.print(rt)?;
        self.date.print(rt)?;
        self.day_of_year.print(rt)?;
        self.weekday.print(rt)?;
        self.status.print(rt)
    }
}

// 0 for the time, 1 for time and date, 2 for UTC time and date.
impl Shown for Asked {
    fn print<P: Print>(&self, rt: &P) -> io::Result<()> {
        (*self as u8).print(rt)
    }
}

impl Shown for Request {
    fn print<P: Print>(&self, rt: &P) -> io::Result<()> {
        self.asked.print(rt)?;
        self.delay_ms.print(rt)
    }
}

// 0 as printed, 1 exchanged.
impl Shown for Order {
    fn print<P: Print>(&self, rt: &P) -> io::Result<()> {
        (*self as u8).print(rt)
    }
}

// Its position, its length and its outcome.
impl Shown for Event {
    fn print<P: Print>(&self, rt: &P) -> io::Result<()> {
        self.start.print(rt)?;
        self.size.print(rt)?;
        self.answer.print(rt)
    }
}

impl Shown for Reader {
    fn print<P: Print>(&self, rt: &P) -> io::Result<()> {
        self.held.as_slice().print(rt)?;
        self.len.print(rt)?;
        self.fed.print(rt)?;
        self.stray.print(rt)?;
        self.start.print(rt)?;
        self.order.print(rt)
    }
}

impl Shown for Kept {
    fn print<P: Print>(&self, rt: &P) -> io::Result<()> {
        self.held.as_slice().print(rt)?;
        self.len.print(rt)?;
        self.fed.print(rt)?;
        self.stray.print(rt)?;
        self.start.print(rt)?;
        self.order.print(rt)
    }
}
