// Lists several lines, each cut into pieces as the input says: two bytes for the length of a piece, the higher first, and the
// piece; 65535 for a length ends a line, and 65534 at the beginning of one says that it is in exchanged order.
#![tactic(auto)]

use listing_output::Printer;
use std::io;
use std::io::{ErrorKind, Read, Write};
use trailer::Order;

const END: u16 = 65535;

const EXCHANGED: u16 = 65534;

// No piece is longer.
const ROOM: usize = 4096;

// The printer of a line, and the length of its next piece, if there is one.
#[derive(Clone, Copy)]
struct Turn {
    printer: Printer,
    length: Option<u16>,
}

// Fills a buffer; answers whether there were so many bytes.
fn read_bytes<S: Read>(source: &mut S, bytes: &mut [u8]) -> io::Result<bool> {
    match source.read_exact(bytes) {
        Ok(()) => Ok(true),
        Err(why) if why.kind() == ErrorKind::UnexpectedEof => Ok(false),
        Err(why) => Err(why),
    }
}

// Nothing, where the input ends.
fn read_length<S: Read>(source: &mut S) -> io::Result<Option<u16>> {
    let mut head = [0u8; 2];
    if read_bytes(source, &mut head)? {
        return Ok(Some(u16::from_be_bytes(head)));
    }
    Ok(None)
}

// Reads a piece and gives it to the printer.
fn next_piece<S: Read, W: Write>(
    source: &mut S,
    to: &mut W,
    printer: Printer,
    length: u16,
) -> io::Result<Turn> {
    let mut room = [0u8; ROOM];
    if let Some(piece) = room.get_mut(..length as usize)
        && read_bytes(source, piece)?
    {
        return Ok(Turn {
            printer: printer.piece(to, piece),
            length: read_length(source)?,
        });
    }
    Ok(Turn {
        printer,
        length: None,
    })
}

// Begins a line by its first length, or by the order before that.
fn begin<S: Read, W: Write>(source: &mut S, to: &mut W, length: u16) -> io::Result<Turn> {
    if length == EXCHANGED {
        return Ok(Turn {
            printer: Printer::start_in(to, Order::Exchanged),
            length: read_length(source)?,
        });
    }
    Ok(Turn {
        printer: Printer::start(to),
        length: Some(length),
    })
}

// Ends a line and begins the next, if there is one.
fn next_line<S: Read, W: Write>(source: &mut S, to: &mut W, printer: Printer) -> io::Result<Turn> {
    let ended = printer.end(to);
    match read_length(source)? {
        Some(length) => begin(source, to, length),
        None => Ok(Turn {
            printer: ended,
            length: None,
        }),
    }
}

fn next<S: Read, W: Write>(
    source: &mut S,
    to: &mut W,
    printer: Printer,
    length: u16,
) -> io::Result<Turn> {
    if length == END {
        return next_line(source, to, printer);
    }
    next_piece(source, to, printer, length)
}

// Nothing says that the input ends, so the turns are counted up to a number that no run comes to.
fn list<S: Read, W: Write>(source: &mut S, to: &mut W) -> io::Result<()> {
    let Some(first) = read_length(source)? else {
        return Ok(());
    };
    let mut turn = begin(source, to, first)?;
    for _ in 0..u64::MAX {
        let Some(length) = turn.length else {
            break;
        };
        turn = next(source, to, turn.printer, length)?;
    }
    Ok(())
}

fn main(rt: HostRuntime) -> io::Result<()> {
    list(&mut rt.reader(), &mut io::writer(&rt))
}
