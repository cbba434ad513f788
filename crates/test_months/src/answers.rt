// A group: a space and four answers about a record, with a colon between them. A refusal is `!` and its number.
//   0 where the record's bare telegram reads
//   the UTC seconds
//   the telegram of a station clock with the record, stepped once
//   the telegram that is written with second advance
// The last three are asked of the record that was read, or of the given one where it does not read.
use clock::Clock;
use layouts::Layout;
use layouts::rows::row_of;
use record::{DatedLayout, Record};
use refusals::Refusal;
use std::io;
use std::io::Write;
use telegram::write::{Choice, Setting};

// A 6021 telegram without STX and ETX.
const BARE: usize = 16;

// Its characters in front of LF and CR: a line has no room for these two.
const SHOWN: usize = 14;

fn put_refusal<W: Write>(line: &mut W, refusal: Refusal) -> io::Result<()> {
    write!(line, "!{}", refusal.number())
}

// The bare telegram that the fields spell. Writing would judge them, so they are laid by the row alone.
fn spelt(rec: Record) -> [u8; BARE] {
    let digits = layouts::coding::digits_out(rec);
    let row = row_of(Layout::Dated(DatedLayout::L6021));
    let mut bytes = [0u8; BARE];
    places::render(row, &digits, &mut bytes);
    bytes
}

fn put_utc<W: Write>(line: &mut W, rec: Record) -> io::Result<()> {
    match record::utc::utc_seconds(rec) {
        Ok(seconds) => write!(line, "{}", seconds.0),
        Err(refusal) => put_refusal(line, refusal),
    }
}

fn put_written<W: Write>(line: &mut W, rec: Record, advance: bool) -> io::Result<()> {
    let setting = Setting {
        control: false,
        advance,
    };
    let mut bytes = [0u8; BARE];
    match telegram::write::write(rec, Choice::Named(setting), &mut bytes) {
        Ok(_) => line.write_all(&bytes[..SHOWN]),
        Err(refusal) => put_refusal(line, refusal),
    }
}

fn put_stepped<W: Write>(line: &mut W, rec: Record) -> io::Result<()> {
    let stepped = Clock { rec }.step();
    match stepped.answer {
        Ok(()) => put_written(line, stepped.clock.rec, false),
        Err(refusal) => put_refusal(line, refusal),
    }
}

fn put_others<W: Write>(line: &mut W, rec: Record) -> io::Result<()> {
    write!(line, ":")?;
    put_utc(line, rec)?;
    write!(line, ":")?;
    put_stepped(line, rec)?;
    write!(line, ":")?;
    put_written(line, rec, true)
}

pub(crate) fn put_group<W: Write>(line: &mut W, rec: Record) -> io::Result<()> {
    write!(line, " ")?;
    match telegram::read::read(&spelt(rec), false) {
        Ok(good) => {
            write!(line, "0")?;
            put_others(line, good)
        }
        Err(refusal) => {
            put_refusal(line, refusal)?;
            put_others(line, rec)
        }
    }
}
