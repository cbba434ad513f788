// A log's file, block by block: its telegrams listed, or its blocks verified.
use super::failure::Failure;
use super::reads;
use delivery_log::BLOCK_SIZE;
use listing::{LONGEST_LOG_ROW, log_rows};
use listing_of_logs::PAGE;
use listing_output::{Unwritten, print_row};
use refusals::Refusal;
use std::io;
use std::io::{Read, Write};

// What is listed: a row for each telegram of the good blocks, or a row for each block.
#[derive(Clone, Copy)]
pub(crate) enum Rows {
    Telegrams,
    Blocks,
}

// As many bytes of the next block as there are before the file ends. As many reads as it takes, so that a log may also come through a
// pipe.
fn fill<S: Read>(source: &mut S, block: &mut [u8]) -> io::Result<usize> {
    let mut done = 0;
    while done < block.len() {
        let Some(count) = reads::next(source, &mut block[done..])? else {
            break;
        };
        done += count;
    }
    Ok(done)
}

fn print<W: Write>(to: &mut W, made: Result<usize, Refusal>, out: &[u8]) -> Result<(), Unwritten> {
    print_row(to, made.map_err(Refusal::number), out)
}

fn print_header<W: Write>(rows: Rows, to: &mut W) -> Result<(), Unwritten> {
    let mut out = [0u8; LONGEST_LOG_ROW];
    let made = match rows {
        Rows::Telegrams => log_rows::header(&mut out),
        Rows::Blocks => log_rows::verify_header(&mut out),
    };
    print(to, made, &out)
}

// A bad block has a row of its own.
fn print_telegrams<W: Write>(number: u64, block: &[u8], to: &mut W) -> Result<(), Unwritten> {
    let mut out = [0u8; PAGE];
    let made = listing_of_logs::rows_of(number, block, &mut out);
    print(to, made, &out)
}

// Answers whether the block is good.
fn print_verified<W: Write>(number: u64, block: &[u8], to: &mut W) -> Result<bool, Unwritten> {
    let mut out = [0u8; LONGEST_LOG_ROW];
    let verified = listing_of_logs::verified_row(number, block, &mut out);
    print(to, verified.row, &out)?;
    Ok(verified.good)
}

// A block's rows, and how many blocks are then counted as bad. Of the telegrams' listing none is.
fn print_block<W: Write>(
    rows: Rows,
    number: u64,
    block: &[u8],
    bad: u64,
    to: &mut W,
) -> Result<u64, Unwritten> {
    match rows {
        Rows::Telegrams => {
            print_telegrams(number, block, to)?;
            Ok(bad)
        }
        Rows::Blocks => {
            let good = print_verified(number, block, to)?;
            Ok(bad.wrapping_add(u64::from(!good)))
        }
    }
}

// Bytes behind the last whole block: 19.
fn print_tail<W: Write>(rows: Rows, number: u64, to: &mut W) -> Result<(), Unwritten> {
    let mut out = [0u8; LONGEST_LOG_ROW];
    let refusal = Refusal::NotWholeBlocks.number();
    let made = match rows {
        Rows::Telegrams => log_rows::block_row(number, refusal, &mut out),
        Rows::Blocks => {
            let offset = listing_of_logs::offset_of(number);
            log_rows::tail_row(number, offset, refusal, &mut out)
        }
    };
    print(to, made, &out)
}

// The last row of a file's blocks: how many are bad. The telegrams have no such row.
fn print_end<W: Write>(rows: Rows, bad: u64, to: &mut W) -> Result<(), Unwritten> {
    match rows {
        Rows::Telegrams => Ok(()),
        Rows::Blocks => {
            let mut out = [0u8; LONGEST_LOG_ROW];
            let made = log_rows::bad_line(bad, &mut out);
            print(to, made, &out)
        }
    }
}

// Nothing says that the file ends, so the blocks are counted up to a number that no run comes to. Where a read failed the listing stops
// there.
pub(crate) fn list<S: Read, W: Write>(
    rows: Rows,
    source: &mut S,
    to: &mut W,
) -> Result<(), Failure> {
    let mut block = [0u8; BLOCK_SIZE];
    let mut bad = 0;
    print_header(rows, to)?;
    for number in 0..u64::MAX {
        let count = fill(source, &mut block).map_err(Failure::LogUnread)?;
        if count < BLOCK_SIZE {
            if count > 0 {
                print_tail(rows, number, to)?;
            }
            print_end(rows, bad, to)?;
            return Ok(());
        }
        bad = print_block(rows, number, &block, bad, to)?;
    }
    Ok(())
}
