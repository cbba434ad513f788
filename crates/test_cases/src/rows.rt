// Cases of the rows of the listing. A row is written into the first bytes of a buffer, which is printed whole.
use super::inputs;
use super::outputs::Shown;
use record::Record;
use std::io;

// The buffer's length.
pub(crate) fn header(rt: &impl Print, bytes: &[u8]) -> io::Result<()> {
    let room = inputs::byte(bytes, 0) as usize;
    let mut out = [inputs::UNTOUCHED; 80];
    out.get_mut(..room)
        .map(|part| listing::rows::header(part))
        .print(rt)?;
    out.as_slice().print(rt)
}

// A refusal's number, or 0 and a record.
fn outcome(bytes: &[u8]) -> Result<Record, u8> {
    match inputs::byte(bytes, 0) {
        0 => Ok(inputs::rec(inputs::behind(bytes, 1))),
        number => Err(number),
    }
}

// The row's start, the buffer's length, and an outcome.
pub(crate) fn row(rt: &impl Print, bytes: &[u8]) -> io::Result<()> {
    let start = inputs::number_32(bytes);
    let room = inputs::byte(bytes, 4) as usize;
    let answer = outcome(inputs::behind(bytes, 5));
    let mut out = [inputs::UNTOUCHED; 80];
    out.get_mut(..room)
        .map(|part| listing::rows::row(start, answer, part))
        .print(rt)?;
    out.as_slice().print(rt)
}

// The count of stray bytes, and the buffer's length.
pub(crate) fn stray_line(rt: &impl Print, bytes: &[u8]) -> io::Result<()> {
    let stray = inputs::number_32(bytes);
    let room = inputs::byte(bytes, 4) as usize;
    let mut out = [inputs::UNTOUCHED; 80];
    out.get_mut(..room)
        .map(|part| listing::rows::stray_line(stray, part))
        .print(rt)?;
    out.as_slice().print(rt)
}
