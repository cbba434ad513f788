// Cases of the parameter bytes of the 6036 and the 6038. A parity is 0 for none, 1 for even, 2 for odd.
use super::inputs;
use super::outputs::Shown;
use board::{Parity, of_6036, of_6038};
use std::io;

fn parity(number: u8) -> Parity {
    match number {
        1 => Parity::Even,
        2 => Parity::Odd,
        _ => Parity::None,
    }
}

pub(crate) fn reads(rt: &impl Print, bytes: &[u8]) -> io::Result<()> {
    of_6036::read(inputs::byte(bytes, 0)).print(rt)
}

// Eight bytes: UTC, data bits, parity, stop bits, and four for the baud.
fn setting(bytes: &[u8]) -> of_6036::Parameter {
    of_6036::Parameter {
        utc: inputs::flag(bytes, 0),
        data_bits: inputs::byte(bytes, 1),
        parity: parity(inputs::byte(bytes, 2)),
        stop_bits: inputs::byte(bytes, 3),
        baud: inputs::number_32(inputs::behind(bytes, 4)),
    }
}

pub(crate) fn writes(rt: &impl Print, bytes: &[u8]) -> io::Result<()> {
    of_6036::write(setting(bytes)).print(rt)
}

pub(crate) fn reads_6038(rt: &impl Print, bytes: &[u8]) -> io::Result<()> {
    of_6038::read(inputs::byte(bytes, 0)).print(rt)
}

// Seven bytes: data bits, parity, stop bits, and four for the baud.
fn setting_6038(bytes: &[u8]) -> of_6038::Parameter {
    of_6038::Parameter {
        data_bits: inputs::byte(bytes, 0),
        parity: parity(inputs::byte(bytes, 1)),
        stop_bits: inputs::byte(bytes, 2),
        baud: inputs::number_32(inputs::behind(bytes, 3)),
    }
}

pub(crate) fn writes_6038(rt: &impl Print, bytes: &[u8]) -> io::Result<()> {
    of_6038::write(setting_6038(bytes)).print(rt)
}
