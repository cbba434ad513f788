// Rows of places: what a row finds in bytes, and the bytes that it makes of digits. No code.
#![tactic(auto)]

use refusals::Refusal;

// The slots that a row's digits have.
pub const SLOTS: usize = 32;

// A place is one number. Below this one it is the fixed character itself.
pub const FIRST_DECIMAL: u8 = 128;

// From FIRST_DECIMAL on come the slots of decimal digits, and from here on those of status and weekday.
pub const FIRST_CODE: u8 = FIRST_DECIMAL + SLOTS as u8;

// What a row finds in some bytes.
#[derive(Clone, Copy, Debug, PartialEq, Eq)]
pub struct Found {
    // The digits, each in the slot that its place names.
    pub digits: [u8; SLOTS],
    // The lowest refusal that some place gives, of 3, 4 and 5.
    pub fault: Option<Refusal>,
}
