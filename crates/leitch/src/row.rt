// The reply as data: a row of 31 places. Time, day, month, status and weekday stand in the slots of the seven layouts.
ghost use Rattle.std.specs.Prelude.{◌≡◌};
ghost use Rattle.leitch_rules.specs.Row.{row_numbers};

use layouts::slots::{D0, D1, H0, H1, M0, M1, MO0, MO1, S0, S1, ST, WD};
use places::FIRST_DECIMAL;

pub(crate) const PLACES: usize = 31;

const COLON: u8 = b':';

const POINT: u8 = b'.';

const SLASH: u8 = b'/';

const SP: u8 = b' ';

const CR: u8 = b'\r';

const LF: u8 = b'\n';

// Behind the letters of year, millisecond and day of the year stands the power of ten.
const Y1: u8 = FIRST_DECIMAL + 12;

const Y0: u8 = FIRST_DECIMAL + 13;

const MS2: u8 = FIRST_DECIMAL + 14;

const MS1: u8 = FIRST_DECIMAL + 15;

const MS0: u8 = FIRST_DECIMAL + 16;

const N2: u8 = FIRST_DECIMAL + 17;

const N1: u8 = FIRST_DECIMAL + 18;

const N0: u8 = FIRST_DECIMAL + 19;

// The row of the reply. Source document 000, 6.5: a field and what stands behind it a line.
#[rattlefmt::skip]
pub(crate) fn row() -> &'static [u8; PLACES]
    ensures { result.now ≡ row_numbers }
{
    &[
        H1, H0, COLON,
        M1, M0, COLON,
        S1, S0, POINT,
        MS2, MS1, MS0, SP,
        D1, D0, SLASH,
        MO1, MO0, SLASH,
        Y1, Y0, SP,
        N2, N1, N0, SP,
        WD, SP,
        ST,
        CR, LF,
    ]
}
