// The listing, handed to a writer: each row goes out when its event has come.
#![tactic(auto)]

ghost use Rattle.std.specs.Prelude.{◌≡◌, ◌++◌, take, Ok, OnOk};
ghost use Rattle.std.specs.Io.KnownBytes.{Appends};
ghost use Rattle.line.specs.Readers.{fresh_in, fresh_reader, end_reader};
ghost use Rattle.listing_rules.specs.Listing.{header_row, stray_row};
ghost use Rattle.listing_of_lines.specs.Pages.{page_of, row_for};
ghost use Rattle.refusals.specs.Numbers.{number};
ghost use Rattle.line_rules.specs.Hearing.{heard_as};
ghost use Rattle.listing_output.specs.declared.Unwritten.TheVariants.{Failed, Refused};
ghost use Rattle.listing_output.specs.Printing.{page_room, after_piece, printed, numbered, printed_row, bytes_of, piece_rows, end_rows, IsSent, IsRowSent, IsSilentUnlessWhole};

use line::{Heard, Reader};
use listing::LONGEST_ROW;
use listing_of_lines::row_of;
use refusals::Refusal;
use std::io;
use std::io::Write;
use trailer::Order;

// Why the output is not whole. Nothing more is written then.
#[derive(Clone, Copy)]
pub enum Unwritten {
    // A write did not go through, for this reason.
    Failed(io::Error),
    // Something was refused with this number.
    Refused(u8),
}

impl From<io::Error> for Unwritten {
    ghost from_gives = { λ why unwritten. unwritten ≡ Failed why };

    fn from(why: io::Error) -> Unwritten {
        Unwritten::Failed(why)
    }
}

impl From<Refusal> for Unwritten {
    ghost from_gives = { λ refusal unwritten. unwritten ≡ Refused (number refusal) };

    fn from(refusal: Refusal) -> Unwritten {
        Unwritten::Refused(refusal.number())
    }
}

// The reader of the line so far, and how the output stands.
#[derive(Clone, Copy)]
pub struct Printer {
    pub reader: Reader,
    pub output: Result<(), Unwritten>,
}

// Room for the rows that are written at once.
const PAGE: usize = 4096;

// What was taken of a piece, and how its rows went out.
#[derive(Drop)]
struct Sheet {
    reader: Reader,
    taken: usize,
    written: io::Result<()>,
}

// Writes the first bytes of a buffer.
fn print<W: Write>(to: &mut W, out: &[u8], count: usize) -> io::Result<()>
    ensures { OnOk result (Appends (W.contents to.old) (W.contents to.new) (take count out.now)) }
{
    to.write_all(&out[..count.min(out.len())])
}

// Writes a row that was made at the front of a buffer, or tells the number that it was refused with.
pub fn print_row<W: Write>(to: &mut W, made: Result<usize, u8>, out: &[u8]) -> Result<(), Unwritten>
    ensures told { result ≡ printed_row made result }
    ensures sent { IsRowSent made result (W.contents to.old) (W.contents to.new) out.now }
{
    match made {
        Ok(count) => Ok(print(to, out, count)?),
        Err(number) => Err(Unwritten::Refused(number)),
    }
}

// The same of what `listing` hands out.
fn print_made<W: Write>(
    to: &mut W,
    made: Result<usize, Refusal>,
    out: &[u8],
) -> Result<(), Unwritten>
    ensures told { result ≡ printed_row (numbered made) result }
    ensures sent { IsRowSent (numbered made) result (W.contents to.old) (W.contents to.new) out.now }
{
    print_row(to, made.map_err(Refusal::number), out)
}

fn print_header<W: Write>(to: &mut W) -> Result<(), Unwritten>
    ensures { IsSent result (W.contents to.old) (W.contents to.new) header_row }
{
    let mut out = [0u8; LONGEST_ROW];
    let made = listing::rows::header(&mut out);
    print_made(to, made, &out)
}

fn print_stray<W: Write>(to: &mut W, stray: u32) -> Result<(), Unwritten>
    ensures { IsSent result (W.contents to.old) (W.contents to.new) (stray_row stray) }
{
    let mut out = [0u8; LONGEST_ROW];
    let made = listing::rows::stray_line(stray, &mut out);
    print_made(to, made, &out)
}

// The last event's row, if there is one, and the line with the count of stray bytes.
fn print_last<W: Write>(to: &mut W, heard: Heard, stray: u32) -> Result<(), Unwritten>
    ensures { IsSent result (W.contents to.old) (W.contents to.new) (bytes_of (row_for (heard_as heard)) ++ stray_row stray) }
{
    let mut out = [0u8; LONGEST_ROW];
    let made = row_of(heard, &mut out);
    print_made(to, made, &out)?;
    print_stray(to, stray)
}

// The rows of as much of a piece as one buffer takes.
fn print_page<W: Write>(to: &mut W, reader: Reader, piece: &[u8]) -> Sheet
    ensures reader { result.reader ≡ (page_of page_room reader piece.now).reader }
    ensures taken { result.taken ≡ (page_of page_room reader piece.now).taken }
    ensures sent { OnOk result.written (Appends (W.contents to.old) (W.contents to.new) (page_of page_room reader piece.now).bytes) }
{
    let mut out = [0u8; PAGE];
    let listed = listing_of_lines::list(reader, piece, &mut out);
    Sheet {
        reader: listed.reader,
        taken: listed.taken,
        written: print(to, &out, listed.used),
    }
}

// Uses a piece up, page by page. Where a write fails the reader comes back as it was.
fn print_piece<W: Write>(to: &mut W, reader: Reader, piece: &[u8]) -> Printer
    ensures left { result ≡ printed (Ok tt) reader (after_piece reader piece.now) result.output }
    ensures sent { IsSent result.output (W.contents to.old) (W.contents to.new) (piece_rows reader piece.now) }
{
    if !reader.is_well_formed() {
        return Printer {
            reader,
            output: Err(Unwritten::from(Refusal::StateIllFormed)),
        };
    }
    let mut next = reader;
    let mut at = 0;
    while at < piece.len() {
        let sheet = print_page(to, next, &piece[at..]);
        next = sheet.reader;
        at += sheet.taken;
        if let Err(why) = sheet.written {
            return Printer {
                reader,
                output: Err(Unwritten::Failed(why)),
            };
        }
    }
    Printer {
        reader: next,
        output: Ok(()),
    }
}

fn print_end<W: Write>(to: &mut W, reader: Reader) -> Printer
    ensures left { result ≡ printed (Ok tt) reader (end_reader reader).reader result.output }
    ensures sent { IsSent result.output (W.contents to.old) (W.contents to.new) (end_rows reader) }
{
    if !reader.is_well_formed() {
        return Printer {
            reader,
            output: Err(Unwritten::from(Refusal::StateIllFormed)),
        };
    }
    let ended = reader.end();
    match print_last(to, ended.heard, reader.stray) {
        Ok(()) => Printer {
            reader: ended.reader,
            output: Ok(()),
        },
        Err(why) => Printer {
            reader,
            output: Err(why),
        },
    }
}

impl Printer {
    // A fresh reader, as printed; the header is written.
    pub fn start<W: Write>(to: &mut W) -> Printer
        ensures reader { result.reader ≡ fresh_reader }
        ensures sent { IsSent result.output (W.contents to.old) (W.contents to.new) header_row }
    {
        Printer::start_in(to, Order::AsPrinted)
    }

    // The same for a line in a named order.
    pub fn start_in<W: Write>(to: &mut W, order: Order) -> Printer
        ensures reader { result.reader ≡ fresh_in order }
        ensures sent { IsSent result.output (W.contents to.old) (W.contents to.new) header_row }
    {
        Printer {
            reader: Reader::fresh_in(order),
            output: print_header(to),
        }
    }

    // Uses a piece up, and writes the rows of its events.
    pub fn piece<W: Write>(self, to: &mut W, piece: &[u8]) -> Printer
        ensures left { result ≡ printed self.output self.reader (after_piece self.reader piece.now) result.output }
        ensures sent { IsSent result.output (W.contents to.old) (W.contents to.new) (piece_rows self.reader piece.now) }
        ensures silent { IsSilentUnlessWhole self.output (W.contents to.old) (W.contents to.new) }
    {
        match self.output {
            Ok(()) => print_piece(to, self.reader, piece),
            Err(_) => self,
        }
    }

    // Ends the line: the last event's row, if there is one, and the count of stray bytes are written.
    pub fn end<W: Write>(self, to: &mut W) -> Printer
        ensures left { result ≡ printed self.output self.reader (end_reader self.reader).reader result.output }
        ensures sent { IsSent result.output (W.contents to.old) (W.contents to.new) (end_rows self.reader) }
        ensures silent { IsSilentUnlessWhole self.output (W.contents to.old) (W.contents to.new) }
    {
        match self.output {
            Ok(()) => print_end(to, self.reader),
            Err(_) => self,
        }
    }
}
