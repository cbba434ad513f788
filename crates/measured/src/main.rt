// Work to be measured, chosen by the first byte of standard input. The rest is for r and w 6021 telegrams of 18 bytes each, for
// l any line, and for v and a the region of a log: r reads each telegram, w writes the record of each anew, l feeds the line to a
// reader, v verifies the region, a adds one telegram to it until that is refused.
// For w it prints the telegrams that were written, so that no byte of them can be left out. For the others it prints how often that
// went well, of a line how many events it has, and of a region the number of its first bad block, or that of all blocks where none
// is bad. Input longer than a piece is worked on piece by piece, each for itself, and the numbers of the pieces are added up.
#![tactic(auto)]

ghost use Rattle.std.specs.Prelude.{◌≤◌, length, IfOk};

use calendar::date::Date;
use calendar::time::Time;
use delivery_log::verify::Damage;
use line::Reader;
use record::{DatedLayout, Reception, Record, Status, TimeLayout};
use std::io;
use std::io::{ErrorKind, Read};
use telegram::write::{Choice, Setting};

const TELEGRAM: usize = 18;

// Whole telegrams and whole blocks.
const PIECE: usize = 64512;

fn number(tens: u8, ones: u8) -> u8 {
    10 * (tens % 16) + ones % 16
}

// The record of a telegram of 1980 to 1999 in standard time, taken without judging it.
fn made(bytes: &[u8]) -> Record {
    if bytes.len() < TELEGRAM {
        return Record::TimeOnly(
            TimeLayout::T6021,
            Time {
                hour: 0,
                minute: 0,
                second: 0,
            },
        );
    }
    Record::Dated(
        DatedLayout::L6021,
        Status {
            reception: Reception::Radio,
            daylight: false,
            utc: false,
            announced: false,
        },
        bytes[2] % 8,
        Date {
            year: 1900 + number(bytes[13], bytes[14]) as u16,
            month: number(bytes[11], bytes[12]),
            day: number(bytes[9], bytes[10]),
        },
        Time {
            hour: number(bytes[3], bytes[4]),
            minute: number(bytes[5], bytes[6]),
            second: number(bytes[7], bytes[8]),
        },
    )
}

fn writes(rec: Record, out: &mut [u8]) -> bool {
    let setting = Setting {
        control: true,
        advance: false,
    };
    telegram::write::write(rec, Choice::Named(setting), out).is_ok()
}

// Writes the records one behind another, where they have room; answers how many bytes they take.
fn write_each(data: &[u8], out: &mut [u8]) -> usize
    ensures { result ≤ length out.new }
{
    let mut used = 0;
    for telegram in data.chunks_exact(TELEGRAM) {
        let end = used + TELEGRAM;
        if let Some(room) = out.get_mut(used..end)
            && writes(made(telegram), room)
        {
            used = end;
        }
    }
    used
}

fn read_each(data: &[u8]) -> u64 {
    data.chunks_exact(TELEGRAM)
        .filter(|bytes| telegram::read::read(bytes, true).is_ok())
        .count() as u64
}

// Uses a line up, and counts its events.
fn events(data: &[u8]) -> u64 {
    let mut reader = Reader::fresh();
    let mut heard: u64 = 0;
    let mut rest = data;
    while !rest.is_empty() {
        let passed = line::pieces::use_up(reader, rest);
        if passed.taken == 0 {
            break;
        }
        heard = heard.wrapping_add(passed.count as u64);
        reader = passed.reader;
        rest = &rest[passed.taken..];
    }
    heard
}

fn good_blocks(region: &[u8]) -> u64 {
    match delivery_log::verify::verify(region) {
        Ok(()) => (region.len() / delivery_log::BLOCK_SIZE) as u64,
        Err(Damage::BadBlock(block)) => block as u64,
        Err(Damage::NotWholeBlocks) => 0,
    }
}

fn adds(region: &mut [u8]) -> bool {
    let telegram = b"\x02E3123456170496\n\r\x03";
    delivery_log::add::add(region, telegram).is_ok()
}

// How often a telegram can be added. No region has more free slots than bytes.
fn added(region: &mut [u8]) -> u64 {
    (0..region.len()).take_while(|_| adds(region)).count() as u64
}

fn work(mode: u8, data: &mut [u8]) -> u64 {
    match mode {
        b'l' => events(data),
        b'v' => good_blocks(data),
        b'a' => added(data),
        _ => read_each(data),
    }
}

// Fills a piece as far as the input goes; answers how many bytes there were. A piece that is not full is the last.
fn fill<S: Read>(source: &mut S, piece: &mut [u8]) -> io::Result<usize>
    ensures { IfOk result (λ count. count ≤ length piece.new) }
{
    let mut count = 0;
    for _ in 0..u64::MAX {
        if count == piece.len() {
            break;
        }
        match source.read(&mut piece[count..]) {
            Ok(0) => break,
            Ok(more) => count += more,
            Err(why) if why.kind() == ErrorKind::Interrupted => {}
            Err(why) => return Err(why),
        }
    }
    Ok(count)
}

// Works on the input piece by piece. Nothing says that it ends, so the turns are counted up to a number that no run comes to.
fn count<S: Read>(source: &mut S, mode: u8, piece: &mut [u8]) -> io::Result<u64> {
    let mut good: u64 = 0;
    for _ in 0..u64::MAX {
        let length = fill(source, piece)?;
        let some = work(mode, &mut piece[..length]);
        good = good.wrapping_add(some);
        if length < piece.len() {
            break;
        }
    }
    Ok(good)
}

// Writes the input's records anew, piece by piece.
fn print_written<S: Read>(rt: &impl Print, source: &mut S, piece: &mut [u8]) -> io::Result<()> {
    let mut out = [0u8; PIECE];
    for _ in 0..u64::MAX {
        let length = fill(source, piece)?;
        let used = write_each(&piece[..length], &mut out);
        rt.write_all(&out[..used])?;
        if length < piece.len() {
            break;
        }
    }
    Ok(())
}

fn main(rt: HostRuntime) -> io::Result<()> {
    let mut source = rt.reader();
    let mut letter = [0u8; 1];
    if fill(&mut source, &mut letter)? == 0 {
        return Ok(());
    }
    let mut piece = [0u8; PIECE];
    if letter[0] == b'w' {
        return print_written(&rt, &mut source, &mut piece);
    }
    let good = count(&mut source, letter[0], &mut piece)?;
    println!(rt; "{good}")
}
