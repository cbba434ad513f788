// What the parameter byte of the 6038 board says.
use super::Parity;

// In which form the board sends, in plain numbers as on the 6036. Whether in UTC this byte does not say: another one of the board's
// does.
#[derive(Clone, Copy, Debug, PartialEq, Eq)]
pub struct Parameter {
    pub data_bits: u8,
    pub parity: Parity,
    pub stop_bits: u8,
    pub baud: u32,
}
