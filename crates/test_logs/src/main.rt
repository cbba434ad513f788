// Runs a script of operations on a region, which standard input holds one behind another. It prints a line for each operation
// and, behind it, each row of the region that is not what it was before.
// A letter says the operation, and what stands behind it:
//   N   a new region, all zero: two bytes for its length
//   P   stores a byte: two bytes for its place, the byte
//   A   adds a telegram: a byte for its length, its bytes
//   R   reads a telegram back: eight bytes for the block, eight for the slot
//   V   verifies
#![tactic(auto)]

mod input;
mod operations;
mod output;
mod parts;
mod rows;

use std::io;
use std::io::Read;

// No region is longer.
const ROOM: usize = 4096;

// What is read for a letter where the script ends.
const NO_MORE: u8 = 0;

// Zeros all the room there is; answers the new region's length.
fn begin<S: Read>(rt: &impl Print, source: &mut S, room: &mut [u8; ROOM]) -> io::Result<usize> {
    *room = [0u8; ROOM];
    let length = input::number_16(source)?;
    println!(rt; "new {length}")?;
    Ok(length as usize)
}

fn run<S: Read>(rt: &impl Print, source: &mut S, letter: u8, region: &mut [u8]) -> io::Result<()> {
    match letter {
        b'P' => operations::poke(rt, source, region),
        b'A' => operations::add(rt, source, region),
        b'R' => operations::read(rt, source, region),
        b'V' => operations::verify(rt, region),
        _ => Ok(()),
    }?;
    println!(rt)
}

// Runs an operation on the region, which is the first bytes of the room, where it has so many; answers the length of the region that it
// leaves.
fn next<S: Read>(
    rt: &impl Print,
    source: &mut S,
    letter: u8,
    room: &mut [u8; ROOM],
    length: usize,
) -> io::Result<usize> {
    if letter == b'N' {
        return begin(rt, source, room);
    }
    let before = *room;
    if let Some(region) = room.get_mut(..length) {
        run(rt, source, letter, region)?;
    }
    rows::print_changed(
        rt,
        parts::first(&before, length),
        parts::first(room, length),
    )?;
    Ok(length)
}

// Nothing says that the input ends, so the turns are counted up to a number that no run comes to.
fn main(rt: HostRuntime) -> io::Result<()> {
    let mut source = rt.reader();
    let mut room = [0u8; ROOM];
    let mut length = 0;
    for _ in 0..u64::MAX {
        let letter = input::byte(&mut source)?;
        if letter == NO_MORE {
            break;
        }
        length = next(&rt, &mut source, letter, &mut room, length)?;
    }
    Ok(())
}
