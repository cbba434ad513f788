// The parameter byte of the 6036 board.
ghost use Rattle.std.specs.Prelude.{◌≡◌};
ghost use Rattle.board_rules.specs.Of6036.{parity_in, parameter_in, byte_for};
ghost use Rattle.refusals.specs.Numbers.{outcome};

use super::{
    Parity, SWITCH_1, SWITCH_2, SWITCH_3, SWITCH_4, SWITCH_5, SWITCH_6, SWITCH_7, SWITCH_8,
    at_parity, byte_of, is_offered, pick, rate_at, row_of,
};
pub use board_rules::of_6036::Parameter;
use refusals::Refusal;

// Switch 4 counts only where switch 3 is off.
fn parity_in(byte: u8) -> Parity
    ensures { result ≡ parity_in byte }
{
    match (byte / SWITCH_3 % 2 == 1, byte / SWITCH_4 % 2 == 1) {
        (true, _) => Parity::None,
        (false, true) => Parity::Even,
        (false, false) => Parity::Odd,
    }
}

// The setting of a byte. Every byte is one.
pub fn read(byte: u8) -> Parameter
    ensures { result ≡ parameter_in byte }
{
    Parameter {
        utc: byte / SWITCH_1 % 2 == 1,
        data_bits: pick(byte / SWITCH_2 % 2 == 1, 8, 7),
        parity: parity_in(byte),
        stop_bits: pick(byte / SWITCH_5 % 2 == 1, 1, 2),
        baud: rate_at(
            byte / SWITCH_6 % 2 == 1,
            byte / SWITCH_7 % 2 == 1,
            byte / SWITCH_8 % 2 == 1,
        ),
    }
}

// The byte of a setting; 16 for one that the board does not offer. No parity is written on/on, although the board reads on/off
// as no parity too.
pub fn write(parameter: Parameter) -> Result<u8, Refusal>
    ensures { outcome result ≡ byte_for parameter }
{
    if !is_offered(parameter.data_bits, parameter.stop_bits, parameter.baud) {
        return Err(Refusal::NotOffered);
    }
    let parity = parameter.parity;
    let row = row_of(parameter.baud);
    Ok(byte_of(
        parameter.utc,
        parameter.data_bits == 8,
        at_parity(parity, true, false, false),
        at_parity(parity, true, true, false),
        parameter.stop_bits == 1,
        row / 4 % 2 == 0,
        row / 2 % 2 == 0,
        row % 2 == 0,
    ))
}
