// The commands as data: a row of places for each form, with STX and ETX, and the form that some bytes have.
ghost use Rattle.std.specs.Prelude.{◌≡◌, get_or};
ghost use Rattle.remote_rules.specs.Rows.{row_numbers, by_sign, by_hemispheres, east_west_of, north_south_of, by_length, form_of};
ghost use Rattle.refusals.specs.Numbers.{outcome};

use super::{EastWest, NorthSouth};
use layouts::slots::{D0, D1, H0, H1, M0, M1, MO0, MO1, S0, S1, WD, Y0, Y1};
use places::{FIRST_CODE, FIRST_DECIMAL};
use refusals::Refusal;
use remote_rules::rows::Form;
use telegram::{ETX, STX};

const CR: u8 = b'\r';

const LF: u8 = b'\n';

const COLON: u8 = b':';

const COMMA: u8 = b',';

// The two characters of the status.
const ST1: u8 = FIRST_CODE;

const ST0: u8 = FIRST_CODE + 16;

// Degrees, minutes and the digits behind them: of the longitude, and of the latitude.
const E2: u8 = FIRST_DECIMAL;

const E1: u8 = FIRST_DECIMAL + 1;

const E0: u8 = FIRST_DECIMAL + 2;

const EM1: u8 = FIRST_DECIMAL + 3;

const EM0: u8 = FIRST_DECIMAL + 4;

const EF1: u8 = FIRST_DECIMAL + 5;

const EF0: u8 = FIRST_DECIMAL + 6;

const N1: u8 = FIRST_DECIMAL + 7;

const N0: u8 = FIRST_DECIMAL + 8;

const NM1: u8 = FIRST_DECIMAL + 9;

const NM0: u8 = FIRST_DECIMAL + 10;

const NF1: u8 = FIRST_DECIMAL + 11;

const NF0: u8 = FIRST_DECIMAL + 12;

// The row of a form. Source document 003, section 7: a form a line, but for the data field of a TIM with a time and of a position, which
// have one of their own.
#[rattlefmt::skip]
pub(crate) fn row_of(form: Form) -> &'static [u8]
    ensures { result.now ≡ row_numbers form }
{
    match form {
        Form::Tim => &[
            STX, b'T', b'I', b'M', COLON, ST1, ST0,
            COMMA, H1, H0, COMMA, M1, M0, COMMA, S1, S0, COMMA, D1, D0, COMMA, MO1, MO0, COMMA, Y1, Y0, COMMA, WD, CR, LF, ETX,
        ],
        Form::TimAsked => &[STX, b'T', b'I', b'M', COLON, ST1, ST0, CR, LF, ETX],
        Form::DifPlus => &[STX, b'D', b'I', b'F', COLON, b'+', H1, H0, COMMA, M1, M0, CR, LF, ETX],
        Form::DifMinus => &[STX, b'D', b'I', b'F', COLON, b'-', H1, H0, COMMA, M1, M0, CR, LF, ETX],
        Form::DifAsked => &[STX, b'D', b'I', b'F', COLON, CR, LF, ETX],
        Form::PosWestNorth => &[
            STX, b'P', b'O', b'S', COLON,
            b'W', COLON, E2, E1, E0, COMMA, EM1, EM0, COMMA, EF1, EF0, COMMA, b'N', COLON, N1, N0, COMMA, NM1, NM0, COMMA, NF1, NF0, CR, LF, ETX,
        ],
        Form::PosWestSouth => &[
            STX, b'P', b'O', b'S', COLON,
            b'W', COLON, E2, E1, E0, COMMA, EM1, EM0, COMMA, EF1, EF0, COMMA, b'S', COLON, N1, N0, COMMA, NM1, NM0, COMMA, NF1, NF0, CR, LF, ETX,
        ],
        Form::PosEastNorth => &[
            STX, b'P', b'O', b'S', COLON,
            b'E', COLON, E2, E1, E0, COMMA, EM1, EM0, COMMA, EF1, EF0, COMMA, b'N', COLON, N1, N0, COMMA, NM1, NM0, COMMA, NF1, NF0, CR, LF, ETX,
        ],
        Form::PosEastSouth => &[
            STX, b'P', b'O', b'S', COLON,
            b'E', COLON, E2, E1, E0, COMMA, EM1, EM0, COMMA, EF1, EF0, COMMA, b'S', COLON, N1, N0, COMMA, NM1, NM0, COMMA, NF1, NF0, CR, LF, ETX,
        ],
        Form::PosAsked => &[STX, b'P', b'O', b'S', COLON, CR, LF, ETX],
    }
}

// The form of a difference with this sign.
fn by_sign(sign: u8) -> Form
    ensures { result ≡ by_sign sign }
{
    if sign == b'-' {
        Form::DifMinus
    } else {
        Form::DifPlus
    }
}

fn east_west_of(letter: u8) -> EastWest
    ensures { result ≡ east_west_of letter }
{
    if letter == b'W' {
        EastWest::West
    } else {
        EastWest::East
    }
}

fn north_south_of(letter: u8) -> NorthSouth
    ensures { result ≡ north_south_of letter }
{
    if letter == b'S' {
        NorthSouth::South
    } else {
        NorthSouth::North
    }
}

// The form of a position in these hemispheres.
pub(crate) fn by_hemispheres(east_west: EastWest, north_south: NorthSouth) -> Form
    ensures { result ≡ by_hemispheres east_west north_south }
{
    match (east_west, north_south) {
        (EastWest::West, NorthSouth::North) => Form::PosWestNorth,
        (EastWest::West, NorthSouth::South) => Form::PosWestSouth,
        (EastWest::East, NorthSouth::North) => Form::PosEastNorth,
        (EastWest::East, NorthSouth::South) => Form::PosEastSouth,
    }
}

// The form of a length that a command has, or 1.
fn by_length(
    size: usize,
    full: usize,
    carrying: Form,
    brief: usize,
    asking: Form,
) -> Result<Form, Refusal>
    ensures { outcome result ≡ by_length size full carrying brief asking }
{
    if size == full {
        return Ok(carrying);
    }
    if size == brief {
        return Ok(asking);
    }
    Err(Refusal::Length)
}

// The byte at a place, or 0 behind the last.
fn byte_at(bytes: &[u8], at: usize) -> u8
    ensures { result ≡ get_or bytes.now at 0 }
{
    bytes.get(at).copied().unwrap_or(0)
}

// The form that some bytes have, or 22, or 1.
pub(crate) fn form_of(bytes: &[u8]) -> Result<Form, Refusal>
    ensures { outcome result ≡ form_of bytes.now }
{
    let size = bytes.len();
    match bytes {
        [_, b'T', b'I', b'M', COLON, ..] => by_length(size, 30, Form::Tim, 10, Form::TimAsked),
        [_, b'D', b'I', b'F', COLON, ..] => {
            by_length(size, 14, by_sign(byte_at(bytes, 5)), 8, Form::DifAsked)
        }
        [_, b'P', b'O', b'S', COLON, ..] => {
            let east_west = east_west_of(byte_at(bytes, 5));
            let north_south = north_south_of(byte_at(bytes, 17));
            let carrying = by_hemispheres(east_west, north_south);
            by_length(size, 30, carrying, 8, Form::PosAsked)
        }
        _ => Err(Refusal::UnknownCommand),
    }
}
