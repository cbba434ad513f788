// The places of the layouts that hold a digit: each is its slot, counted from the first decimal or the first code place.
use places::{FIRST_CODE, FIRST_DECIMAL};

pub const ST: u8 = FIRST_CODE;

pub const WD: u8 = FIRST_CODE + 1;

// Behind the letters of hour, minute, second, day, month and year stands the power of ten.
pub const H1: u8 = FIRST_DECIMAL + 2;

pub const H0: u8 = FIRST_DECIMAL + 3;

pub const M1: u8 = FIRST_DECIMAL + 4;

pub const M0: u8 = FIRST_DECIMAL + 5;

pub const S1: u8 = FIRST_DECIMAL + 6;

pub const S0: u8 = FIRST_DECIMAL + 7;

pub const D1: u8 = FIRST_DECIMAL + 8;

pub const D0: u8 = FIRST_DECIMAL + 9;

pub const MO1: u8 = FIRST_DECIMAL + 10;

pub const MO0: u8 = FIRST_DECIMAL + 11;

pub const Y3: u8 = FIRST_DECIMAL + 12;

pub const Y2: u8 = FIRST_DECIMAL + 13;

pub const Y1: u8 = FIRST_DECIMAL + 14;

pub const Y0: u8 = FIRST_DECIMAL + 15;
