// Asks the library about the seconds around full hours at both ends of every month of the calendar, 1980 to 2079, and prints
// a line for each month. It reads nothing, and it knows no rule of its own: it asks and prints.
// A line is the month and 96 groups: for the first day and the last, for each mark, for each time. `records` has the marks and
// the times in their order, `answers` what a group says.
#![tactic(auto)]

mod answers;
mod records;

use std::io;
use std::io::{Cursor, Write};

// No line is longer: a group has at most 43 bytes.
const LINE: usize = 4200;

// The groups of one day in each of the marks.
fn put_day<W: Write>(line: &mut W, day: records::Day) -> io::Result<()> {
    for mark in records::MARKS {
        for time in records::TIMES {
            answers::put_group(line, records::made(day, mark, time))?;
        }
    }
    Ok(())
}

fn put_line<W: Write>(line: &mut W, year: u16, month: u8) -> io::Result<()> {
    write!(line, "{year}-{month:02}")?;
    put_day(line, records::first_day(year, month))?;
    put_day(line, records::last_day(year, month))?;
    writeln!(line)
}

// A line is written at once: a call for each answer would cost more than the answers.
fn print_month(rt: &impl Print, year: u16, month: u8) -> io::Result<()> {
    let mut line = Cursor::new([0u8; LINE]);
    put_line(&mut line, year, month)?;
    let count = (line.position() as usize).min(LINE);
    rt.write_all(&line.into_inner()[..count])
}

fn main(rt: HostRuntime) -> io::Result<()> {
    for year in 1980..=2079 {
        for month in 1..=12 {
            print_month(&rt, year, month)?;
        }
    }
    Ok(())
}
