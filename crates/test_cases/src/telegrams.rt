// Cases of reading and writing telegrams. A buffer is printed whole, with the bytes that were not to change.
use super::inputs;
use super::outputs::Shown;
use std::io;
use telegram::several::Several;
use telegram::write::write;

pub(crate) fn reads(rt: &impl Print, bytes: &[u8], control: bool) -> io::Result<()> {
    telegram::read::read(bytes, control).print(rt)
}

// Whether with control characters, the order, and the bytes.
pub(crate) fn reads_in(rt: &impl Print, bytes: &[u8]) -> io::Result<()> {
    let control = inputs::flag(bytes, 0);
    let order = inputs::order(inputs::byte(bytes, 1));
    telegram::read::read_in(inputs::behind(bytes, 2), control, order).print(rt)
}

// A choice, the buffer's length, and a record.
pub(crate) fn writes(rt: &impl Print, bytes: &[u8]) -> io::Result<()> {
    let choice = inputs::choice(inputs::byte(bytes, 0));
    let room = inputs::byte(bytes, 1) as usize;
    let rec = inputs::rec(inputs::behind(bytes, 2));
    let mut out = [inputs::UNTOUCHED; 32];
    out.get_mut(..room)
        .map(|part| write(rec, choice, part))
        .print(rt)?;
    out.as_slice().print(rt)
}

// A choice, the buffer's length, and records.
pub(crate) fn writes_several(rt: &impl Print, bytes: &[u8]) -> io::Result<()> {
    let choice = inputs::choice(inputs::byte(bytes, 0));
    let room = inputs::byte(bytes, 1) as usize;
    let mut out = [inputs::UNTOUCHED; 64];
    let mut several = Several::start();
    if let Some(part) = out.get_mut(..room) {
        for rec in inputs::behind(bytes, 2).chunks(inputs::RECORD_BYTES) {
            several = several.add(inputs::rec(rec), choice, part);
        }
    }
    several.count.print(rt)?;
    several.used.print(rt)?;
    several.ending.err().unwrap_or(0).print(rt)?;
    out.as_slice().print(rt)
}
