// Cases of reading and writing replies to a Leitch generator. A buffer is printed whole, with the bytes that were not to change.
use super::inputs;
use super::outputs::Shown;
use leitch::Reply;
use leitch::write::write;
use std::io;

pub(crate) fn reads(rt: &impl Print, bytes: &[u8]) -> io::Result<()> {
    leitch::read::read(bytes).print(rt)
}

// Thirteen bytes: time, two for the millisecond, date, two for the day of the year, weekday, status.
fn reply(bytes: &[u8]) -> Reply {
    Reply {
        time: inputs::time(bytes),
        millisecond: inputs::number_16(inputs::behind(bytes, 3)),
        date: inputs::date(inputs::behind(bytes, 5)),
        day_of_year: inputs::number_16(inputs::behind(bytes, 9)),
        weekday: inputs::byte(bytes, 11),
        status: inputs::byte(bytes, 12),
    }
}

// The buffer's length, and a reply.
pub(crate) fn writes(rt: &impl Print, bytes: &[u8]) -> io::Result<()> {
    let room = inputs::byte(bytes, 0) as usize;
    let reply = reply(inputs::behind(bytes, 1));
    let mut out = [inputs::UNTOUCHED; 32];
    out.get_mut(..room)
        .map(|part| write(reply, part))
        .print(rt)?;
    out.as_slice().print(rt)
}
