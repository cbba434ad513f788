// Cases of every trailer: each pair of bytes is put in the trailer's place, and the telegram is read in the order that was asked for.
use super::inputs;
use super::outputs::Shown;
use layouts::rows::own_layout;
use record::Record;
use refusals::Refusal;
use std::io;
use telegram::read::read_in;
use trailer::{Order, place_in};

// No telegram of a case is longer.
const ROOM: usize = 64;

// How a telegram is read, and where its trailer begins. One that is too short to have a trailer is read as it is.
#[derive(Clone, Copy)]
struct Tried {
    control: bool,
    order: Order,
    trailer: Option<usize>,
}

impl Tried {
    // What is read with one trailer.
    fn read(self, telegram: &mut [u8], pair: u16) -> Result<Record, Refusal> {
        if let Some(at) = self.trailer
            && let Some(trailer) = telegram.get_mut(at..at.wrapping_add(2))
        {
            trailer.copy_from_slice(&pair.to_be_bytes());
        }
        read_in(telegram, self.control, self.order)
    }
}

// How many were refused with each number; those that read well stand at 0.
fn tally_of(telegram: &mut [u8], tried: Tried) -> [u64; 9] {
    let mut counts = [0u64; 9];
    for pair in 0..=u16::MAX {
        let at = match tried.read(telegram, pair) {
            Ok(_) => 0,
            Err(refusal) => refusal.number() as usize,
        };
        if let Some(count) = counts.get_mut(at) {
            *count = count.wrapping_add(1);
        }
    }
    counts
}

fn print_good(rt: &impl Print, telegram: &mut [u8], tried: Tried) -> io::Result<()> {
    for pair in 0..=u16::MAX {
        if let Ok(rec) = tried.read(telegram, pair) {
            pair.to_be_bytes().as_slice().print(rt)?;
            own_layout(rec).print(rt)?;
        }
    }
    Ok(())
}

// The shortest telegram with a trailer, with STX and ETX or without.
fn shortest(control: bool) -> usize {
    if control { 4 } else { 2 }
}

// The counts of the eight refusals, and then the trailers that were read well, looked for again where there are any.
pub(crate) fn tries(rt: &impl Print, bytes: &[u8]) -> io::Result<()> {
    let control = inputs::flag(bytes, 0);
    let telegram = inputs::behind(bytes, 2);
    let length = telegram.len();
    let tried = Tried {
        control,
        order: inputs::order(inputs::byte(bytes, 1)),
        trailer: (shortest(control) <= length).then_some(place_in(length, control)),
    };
    let mut copy: [u8; ROOM] = inputs::array(telegram);
    let Some(telegram) = copy.get_mut(..length) else {
        return [0u64; 8].as_slice().print(rt);
    };
    let counts = tally_of(telegram, tried);
    (&counts[1..]).print(rt)?;
    if counts[0] > 0 {
        print_good(rt, telegram, tried)?;
    }
    Ok(())
}
