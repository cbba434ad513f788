// What the parameter byte of the 6036 board says.
use super::Parity;

// How the board sends: in UTC or in CET and CEST, and in which form. Data bits, stop bits and baud are plain numbers, so that a
// caller can ask for what the board does not offer, and is refused.
#[derive(Clone, Copy, Debug, PartialEq, Eq)]
pub struct Parameter {
    pub utc: bool,
    pub data_bits: u8,
    pub parity: Parity,
    pub stop_bits: u8,
    pub baud: u32,
}
