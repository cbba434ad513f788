// Reading a script. Numbers stand with the higher byte first, and a byte that is not there is 0.
use std::io;
use std::io::{ErrorKind, Read};

// Fills a buffer as far as the script goes.
pub(crate) fn fill<S: Read>(source: &mut S, bytes: &mut [u8]) -> io::Result<()> {
    match source.read_exact(bytes) {
        Err(why) if why.kind() == ErrorKind::UnexpectedEof => Ok(()),
        filled => filled,
    }
}

pub(crate) fn byte<S: Read>(source: &mut S) -> io::Result<u8> {
    let mut one = [0u8; 1];
    fill(source, &mut one)?;
    Ok(one[0])
}

pub(crate) fn number_16<S: Read>(source: &mut S) -> io::Result<u16> {
    let mut two = [0u8; 2];
    fill(source, &mut two)?;
    Ok(u16::from_be_bytes(two))
}

pub(crate) fn number_64<S: Read>(source: &mut S) -> io::Result<u64> {
    let mut eight = [0u8; 8];
    fill(source, &mut eight)?;
    Ok(u64::from_be_bytes(eight))
}
