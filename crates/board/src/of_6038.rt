// The parameter byte of the 6038 board.
ghost use Rattle.std.specs.Prelude.{◌≡◌};
ghost use Rattle.board_rules.specs.Of6038.{parity_in, parameter_in, byte_for};
ghost use Rattle.refusals.specs.Numbers.{outcome};

use super::{
    Parity, SWITCH_2, SWITCH_3, SWITCH_4, SWITCH_5, SWITCH_6, SWITCH_7, SWITCH_8, at_parity,
    byte_of, is_offered, pick, rate_at, row_of,
};
pub use board_rules::of_6038::Parameter;
use refusals::Refusal;

// Switch 3 off with 4 on is not in the board's table.
fn parity_in(byte: u8) -> Result<Parity, Refusal>
    ensures { outcome result ≡ parity_in byte }
{
    match (byte / SWITCH_3 % 2 == 1, byte / SWITCH_4 % 2 == 1) {
        (true, true) => Ok(Parity::Odd),
        (true, false) => Ok(Parity::Even),
        (false, false) => Ok(Parity::None),
        (false, true) => Err(Refusal::NotOffered),
    }
}

// The setting of a byte; 16 for one whose parity is not listed. Switch 1 has no use and is not looked at.
pub fn read(byte: u8) -> Result<Parameter, Refusal>
    ensures { outcome result ≡ parameter_in byte }
{
    Ok(Parameter {
        data_bits: pick(byte / SWITCH_2 % 2 == 1, 7, 8),
        parity: parity_in(byte)?,
        stop_bits: pick(byte / SWITCH_5 % 2 == 1, 2, 1),
        baud: rate_at(
            byte / SWITCH_8 % 2 == 1,
            byte / SWITCH_7 % 2 == 1,
            byte / SWITCH_6 % 2 == 1,
        ),
    })
}

// The byte of a setting; 16 for one that the board does not offer. Switch 1 is written off.
pub fn write(parameter: Parameter) -> Result<u8, Refusal>
    ensures { outcome result ≡ byte_for parameter }
{
    if !is_offered(parameter.data_bits, parameter.stop_bits, parameter.baud) {
        return Err(Refusal::NotOffered);
    }
    let parity = parameter.parity;
    let row = row_of(parameter.baud);
    Ok(byte_of(
        false,
        parameter.data_bits == 7,
        at_parity(parity, false, true, true),
        at_parity(parity, false, false, true),
        parameter.stop_bits == 2,
        row % 2 == 0,
        row / 2 % 2 == 0,
        row / 4 % 2 == 0,
    ))
}
