// Runs cases from standard input against the entry points, and prints each outcome as a line of numbers.
// A case is one letter, a length of two bytes, the high one first, and that many bytes; `inputs` says how they are read and
// `outputs` how outcomes are printed.
//   D        the day number of a date, and its weekday
//   d        the date of a day number
//   n        the next day of a date
//   M        the days of a month
//   y        the day of the year of a date
//   T        the second of the day of a time
//   t        the next second of a time
//   h        whether the day has a time
//   J        the refusal of a record
//   B        whether a layout has the status table of the 6021
//   N        the next second of a record
//   C        the seconds that a record counts, local or UTC
//   Z        local seconds in UTC: whether it is daylight time, the seconds
//   U        the UTC seconds of a record
//   K or k   steps a clock, in place or by value: its record
//   P        reads a parameter byte of a 6036
//   Q        writes one: the setting
//   p        reads a parameter byte of a 6038
//   s        writes one: the setting
//   A        takes bytes apart by a row: the row, the bytes
//   a        lays digits down by a row: the row, the digits, the buffer's length
//   O        the row of a layout
//   L        the layout of bytes without STX and ETX
//   I        the record of digits: the layout, the digits
//   i        the digits of a record
//   R or r   reads the bytes as one telegram, with or without control characters
//   Y        reads the bytes as one telegram in a named order: whether with control characters, the order, the bytes
//   x        the same with every trailer: how many are refused with each number, and the trailers that are read
//   W        writes one telegram: a choice, the buffer's length, a record
//   S        writes several one behind another: a choice, the buffer's length, records
//   f        a fresh reader
//   g        a fresh reader of a named order
//   w        whether a reader's state is well formed
//   F        feeds a reader: its state, a piece
//   V        uses a piece up: the reader's state, the piece
//   E        ends a line: the reader's state
//   o        takes over a state that was kept: the state
//   H        writes the header of the listing: the buffer's length
//   G        writes a row of the listing: its start, the buffer's length, an outcome
//   X        writes the last row of the listing: the stray bytes, the buffer's length
//   l        reads the bytes as a reply to a Leitch generator
//   e        writes a reply: the buffer's length, the reply
//   q        reads the bytes as a request
#![tactic(auto)]

mod boards;
mod dates;
mod digits;
mod inputs;
mod lines;
mod outputs;
mod records;
mod replies;
mod request_letters;
mod rows;
mod telegrams;
mod trailers;

use std::io;
use std::io::{ErrorKind, Read};

// No case is longer.
const ROOM: usize = 8192;

fn run(rt: &impl Print, letter: u8, bytes: &[u8]) -> io::Result<()> {
    match letter {
        b'D' => dates::day_number(rt, bytes),
        b'd' => dates::date(rt, bytes),
        b'n' => dates::next_day(rt, bytes),
        b'M' => dates::days_in_month(rt, bytes),
        b'y' => dates::day_of_year(rt, bytes),
        b'T' => dates::second_of_day(rt, bytes),
        b't' => dates::next_second(rt, bytes),
        b'h' => dates::time_in_range(rt, bytes),
        b'J' => records::refusal(rt, bytes),
        b'B' => records::table_of_6021(rt, bytes),
        b'N' => records::next_second(rt, bytes),
        b'C' => records::count(rt, bytes),
        b'Z' => records::to_utc(rt, bytes),
        b'U' => records::utc_seconds(rt, bytes),
        b'K' => records::step_in_place(rt, bytes),
        b'k' => records::step(rt, bytes),
        b'P' => boards::reads(rt, bytes),
        b'Q' => boards::writes(rt, bytes),
        b'p' => boards::reads_6038(rt, bytes),
        b's' => boards::writes_6038(rt, bytes),
        b'A' => digits::scans(rt, bytes),
        b'a' => digits::renders(rt, bytes),
        b'O' => digits::row(rt, bytes),
        b'L' => digits::layout(rt, bytes),
        b'I' => digits::record_in(rt, bytes),
        b'i' => digits::digits_out(rt, bytes),
        b'R' => telegrams::reads(rt, bytes, true),
        b'r' => telegrams::reads(rt, bytes, false),
        b'Y' => telegrams::reads_in(rt, bytes),
        b'x' => trailers::tries(rt, bytes),
        b'W' => telegrams::writes(rt, bytes),
        b'S' => telegrams::writes_several(rt, bytes),
        b'f' => lines::fresh(rt),
        b'g' => lines::fresh_in(rt, bytes),
        b'w' => lines::is_well_formed(rt, bytes),
        b'F' => lines::feeds(rt, bytes),
        b'V' => lines::uses_up(rt, bytes),
        b'E' => lines::ends(rt, bytes),
        b'o' => lines::takes_over(rt, bytes),
        b'H' => rows::header(rt, bytes),
        b'G' => rows::row(rt, bytes),
        b'X' => rows::stray_line(rt, bytes),
        b'l' => replies::reads(rt, bytes),
        b'e' => replies::writes(rt, bytes),
        b'q' => request_letters::reads(rt, bytes),
        _ => Ok(()),
    }?;
    println!(rt)
}

// Fills a buffer; answers whether there were so many bytes.
fn read_bytes<S: Read>(source: &mut S, bytes: &mut [u8]) -> io::Result<bool> {
    match source.read_exact(bytes) {
        Ok(()) => Ok(true),
        Err(why) if why.kind() == ErrorKind::UnexpectedEof => Ok(false),
        Err(why) => Err(why),
    }
}

// Reads one case and runs it; answers whether there was one.
fn next_case<S: Read>(rt: &impl Print, source: &mut S) -> io::Result<bool> {
    let mut head = [0u8; 3];
    if !read_bytes(source, &mut head)? {
        return Ok(false);
    }
    let length = inputs::number_16(inputs::behind(&head, 1)) as usize;
    let mut room = [0u8; ROOM];
    if let Some(bytes) = room.get_mut(..length)
        && read_bytes(source, bytes)?
    {
        run(rt, head[0], bytes)?;
        return Ok(true);
    }
    Ok(false)
}

// Nothing says that the input ends, so the turns are counted up to a number that no run comes to.
fn main(rt: HostRuntime) -> io::Result<()> {
    let mut source = rt.reader();
    for _ in 0..u64::MAX {
        if !next_case(&rt, &mut source)? {
            break;
        }
    }
    Ok(())
}
