// Cases of the line: any state of a reader may be handed in.
use super::inputs;
use super::outputs::Shown;
use line::{Heard, Reader};
use refusals::Refusal;
use std::io;

// Nothing is 0; an event is 1 and what it is; a refused state is 2 and its number.
fn print_heard(rt: &impl Print, heard: Heard) -> io::Result<()> {
    match heard {
        Ok(None) => 0u8.print(rt),
        Ok(Some(event)) => (1u8, event).print(rt),
        Err(refusal) => (2u8, refusal).print(rt),
    }
}

// Its number, or 0.
fn print_refusal(rt: &impl Print, refusal: Option<Refusal>) -> io::Result<()> {
    refusal.map_or(0, Refusal::number).print(rt)
}

pub(crate) fn fresh(rt: &impl Print) -> io::Result<()> {
    Reader::fresh().print(rt)
}

pub(crate) fn fresh_in(rt: &impl Print, bytes: &[u8]) -> io::Result<()> {
    Reader::fresh_in(inputs::order(inputs::byte(bytes, 0))).print(rt)
}

pub(crate) fn is_well_formed(rt: &impl Print, bytes: &[u8]) -> io::Result<()> {
    inputs::reader(bytes).is_well_formed().print(rt)
}

pub(crate) fn feeds(rt: &impl Print, bytes: &[u8]) -> io::Result<()> {
    let reader = inputs::reader(bytes);
    let fed = reader.feed(inputs::behind(bytes, inputs::STATE_BYTES));
    fed.taken.print(rt)?;
    print_heard(rt, fed.heard)?;
    fed.reader.print(rt)
}

// The refusal of the state, the bytes taken, how many events, and each.
pub(crate) fn uses_up(rt: &impl Print, bytes: &[u8]) -> io::Result<()> {
    let passed = line::pieces::use_up(
        inputs::reader(bytes),
        inputs::behind(bytes, inputs::STATE_BYTES),
    );
    print_refusal(rt, passed.refusal)?;
    passed.taken.print(rt)?;
    passed.count.print(rt)?;
    for event in passed.events.iter().take(passed.count) {
        print_heard(rt, Ok(*event))?;
    }
    passed.reader.print(rt)
}

pub(crate) fn ends(rt: &impl Print, bytes: &[u8]) -> io::Result<()> {
    let ended = inputs::reader(bytes).end();
    print_heard(rt, ended.heard)?;
    ended.reader.print(rt)
}

// The refusal, the reader, and the kept state as it comes back.
pub(crate) fn takes_over(rt: &impl Print, bytes: &[u8]) -> io::Result<()> {
    let taken = takeover::take_over(inputs::kept(bytes));
    print_refusal(rt, taken.refusal)?;
    taken.reader.print(rt)?;
    taken.kept.print(rt)
}
