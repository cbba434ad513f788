// The operations of a script: each reads what stands behind its letter and prints its line.
use super::{input, output};
use std::io;
use std::io::Read;

// Nothing is stored where the region has no such place.
fn store(region: &mut [u8], place: usize, value: u8) {
    if let Some(byte) = region.get_mut(place) {
        *byte = value;
    }
}

pub(crate) fn poke<S: Read>(rt: &impl Print, source: &mut S, region: &mut [u8]) -> io::Result<()> {
    let place = input::number_16(source)? as usize;
    store(region, place, input::byte(source)?);
    print!(rt; "poke")
}

pub(crate) fn add<S: Read>(rt: &impl Print, source: &mut S, region: &mut [u8]) -> io::Result<()> {
    let count = input::byte(source)? as usize;
    let mut room = [0u8; 255];
    let telegram = &mut room[..count];
    input::fill(source, telegram)?;
    print!(rt; "add ")?;
    match delivery_log::add::add(region, telegram) {
        Ok(place) => print!(rt; "{} {}", place.block, place.slot),
        Err(refusal) => output::refused(rt, refusal),
    }
}

pub(crate) fn read<S: Read>(rt: &impl Print, source: &mut S, region: &[u8]) -> io::Result<()> {
    let block = input::number_64(source)? as usize;
    let slot = input::number_64(source)? as usize;
    print!(rt; "read ")?;
    match delivery_log::read_back::read_back(region, block, slot) {
        Ok(telegram) => output::hex(rt, telegram),
        Err(refusal) => output::refused(rt, refusal),
    }
}

pub(crate) fn verify(rt: &impl Print, region: &[u8]) -> io::Result<()> {
    print!(rt; "verify ")?;
    match delivery_log::verify::verify(region) {
        Ok(()) => print!(rt; "good"),
        Err(damage) => output::damaged(rt, damage),
    }
}
