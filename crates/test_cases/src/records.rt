// Cases of records and the station clock.
use super::inputs;
use super::outputs::Shown;
use clock::Clock;
use record::season::LocalSeconds;
use std::io;

// Its number, or 0.
pub(crate) fn refusal(rt: &impl Print, bytes: &[u8]) -> io::Result<()> {
    record::rule::check(inputs::rec(bytes)).print(rt)
}

pub(crate) fn table_of_6021(rt: &impl Print, bytes: &[u8]) -> io::Result<()> {
    let layout = inputs::dated_layout(inputs::byte(bytes, 0));
    record::rule::table_of_6021(layout).print(rt)
}

pub(crate) fn next_second(rt: &impl Print, bytes: &[u8]) -> io::Result<()> {
    record::next::next_second(inputs::rec(bytes)).print(rt)
}

pub(crate) fn count(rt: &impl Print, bytes: &[u8]) -> io::Result<()> {
    record::utc::count(inputs::rec(bytes)).print(rt)
}

// Whether it is daylight time, and local seconds.
pub(crate) fn to_utc(rt: &impl Print, bytes: &[u8]) -> io::Result<()> {
    let local = LocalSeconds(inputs::number_32(inputs::behind(bytes, 1)));
    record::season::to_utc(local, inputs::flag(bytes, 0)).print(rt)
}

pub(crate) fn utc_seconds(rt: &impl Print, bytes: &[u8]) -> io::Result<()> {
    record::utc::utc_seconds(inputs::rec(bytes)).print(rt)
}

fn clock(bytes: &[u8]) -> Clock {
    Clock {
        rec: inputs::rec(bytes),
    }
}

pub(crate) fn step(rt: &impl Print, bytes: &[u8]) -> io::Result<()> {
    clock(bytes).step().print(rt)
}

pub(crate) fn step_in_place(rt: &impl Print, bytes: &[u8]) -> io::Result<()> {
    clock::in_place(clock(bytes)).print(rt)
}
