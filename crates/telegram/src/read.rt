// Reading one telegram. Each refusal is a test of its own over the whole telegram, and the lowest that holds is given.
ghost use Rattle.std.specs.Prelude.{◌≡◌, true};
ghost use Rattle.refusals.specs.Numbers.{outcome};
ghost use Rattle.trailer_rules.specs.declared.Order.TheVariants.{Exchanged};
ghost use Rattle.telegram_rules.specs.Reading.{framed, read_body_as, read_in, read_of};

use super::{ETX, STX};
use layouts::Layout;
use layouts::coding::record_in;
use layouts::rows::{layout_of, row_of};
use record::Record;
use record::rule::check;
use refusals::Refusal;
use trailer::{Order, exchange, place_in};

// No layout is longer, with STX and ETX or without.
const LONGEST: usize = 25;

// A body of a known layout: what stands between STX and ETX.
fn read_as(layout: Layout, body: &[u8]) -> Result<Record, Refusal>
    ensures { outcome result ≡ read_body_as layout body.now }
{
    let found = places::scan(row_of(layout), body);
    if let Some(fault) = found.fault {
        return Err(fault);
    }
    let rec = record_in(layout, found.digits);
    check(rec)?;
    Ok(rec)
}

// Whether the first byte is STX and the last is ETX.
pub fn is_framed(bytes: &[u8]) -> bool
    ensures { result ≡ framed bytes.now }
{
    bytes.first() == Some(&STX) && bytes.last() == Some(&ETX)
}

fn read_framed(bytes: &[u8]) -> Result<Record, Refusal>
    ensures { outcome result ≡ read_of true bytes.now }
{
    let length = bytes.len();
    if length < 2 {
        return Err(Refusal::Length);
    }
    let body = &bytes[1..length - 1];
    let layout = layout_of(body)?;
    if !is_framed(bytes) {
        return Err(Refusal::Frame);
    }
    read_as(layout, body)
}

// Reads one telegram: any bytes, with control characters wanted or not, its trailer as printed.
pub fn read(bytes: &[u8], control: bool) -> Result<Record, Refusal>
    ensures { outcome result ≡ read_of control bytes.now }
{
    if control {
        return read_framed(bytes);
    }
    read_as(layout_of(bytes)?, bytes)
}

// Reads a copy with the trailer exchanged, which then is as printed.
fn read_exchanged(bytes: &[u8], control: bool) -> Result<Record, Refusal>
    ensures { outcome result ≡ read_in Exchanged control bytes.now }
{
    let length = bytes.len();
    if LONGEST < length {
        return Err(Refusal::Length);
    }
    let mut copy = [0u8; LONGEST];
    copy[..length].copy_from_slice(bytes);
    exchange(&mut copy, place_in(length, control));
    read(&copy[..length], control)
}

// The same with the trailer in a named order.
pub fn read_in(bytes: &[u8], control: bool, order: Order) -> Result<Record, Refusal>
    ensures { outcome result ≡ read_in order control bytes.now }
{
    match order {
        Order::AsPrinted => read(bytes, control),
        Order::Exchanged => read_exchanged(bytes, control),
    }
}
