// Bytes to digits and back, by places. A row says of each byte of a telegram what stands there: a fixed character, a
// decimal digit, or a status or weekday character. What is done here knows no layout, and holds for any row.
#![tactic(auto)]

ghost use Rattle.std.specs.Prelude.{◌≡◌, map, ◌%◌};
ghost use Rattle.refusals.specs.Numbers.{number_if};
ghost use Rattle.places_rules.specs.Places.{place, is_capital, code_value, kept_at, place_fault, finding, found_in, code_character, byte_at, render, over};

pub use places_rules::{FIRST_CODE, FIRST_DECIMAL, Found, SLOTS};
use refusals::{Refusal, lowest};

fn is_capital(byte: u8) -> bool
    ensures { result ≡ is_capital byte }
{
    matches!(byte, b'A'..=b'F')
}

// The value of a character 0 to 9 or A to F, and 0 of any other.
fn code_value(byte: u8) -> u8
    ensures { result ≡ code_value byte }
{
    if byte.is_ascii_digit() {
        return byte - b'0';
    }
    if is_capital(byte) {
        return byte - 55;
    }
    0
}

// What one place makes of its byte: what its slot then holds, and its refusal, if any.
#[derive(Clone, Copy)]
struct Seen {
    value: u8,
    fault: Option<Refusal>,
}

fn see(at: u8, byte: u8, before: u8) -> Seen
    ensures { (result.value ≡ kept_at (place at) byte before) × (number_if result.fault ≡ place_fault (place at) byte) }
{
    if at < FIRST_DECIMAL {
        if byte == at {
            return Seen {
                value: before,
                fault: None,
            };
        }
        return Seen {
            value: before,
            fault: Some(Refusal::FixedCharacter),
        };
    }
    if byte.is_ascii_digit() {
        return Seen {
            value: byte - b'0',
            fault: None,
        };
    }
    if at < FIRST_CODE {
        return Seen {
            value: code_value(byte),
            fault: Some(Refusal::Digit),
        };
    }
    if is_capital(byte) {
        return Seen {
            value: byte - 55,
            fault: None,
        };
    }
    Seen {
        value: 0,
        fault: Some(Refusal::StatusOrWeekday),
    }
}

// What a row finds in some bytes, up to the end of the shorter one.
pub fn scan(row: &[u8], bytes: &[u8]) -> Found
    ensures { finding result ≡ found_in (map place row.now) bytes.now }
{
    let mut digits = [0u8; SLOTS];
    let mut fault = None;
    for at in 0..row.len().min(bytes.len()) {
        let here = row[at];
        let slot = here as usize % SLOTS;
        let seen = see(here, bytes[at], digits[slot]);
        digits[slot] = seen.value;
        // Most places have no fault, and a test is quicker than a copy.
        if seen.fault.is_some() {
            fault = lowest(seen.fault, fault);
        }
    }
    Found { digits, fault }
}

// The character of a value 0 to 15.
fn code_character(value: u8) -> u8
    ensures { result ≡ code_character (value % 16) }
{
    let low = value % 16;
    if low < 10 {
        return low + b'0';
    }
    low + 55
}

fn byte_at(digits: &[u8; SLOTS], at: u8) -> u8
    ensures { result ≡ byte_at digits.now (place at) }
{
    if at < FIRST_DECIMAL {
        return at;
    }
    let slot = at as usize % SLOTS;
    code_character(digits[slot])
}

// Lays the bytes of a row over the first bytes of `out`, as far as it reaches.
pub fn render(row: &[u8], digits: &[u8; SLOTS], out: &mut [u8])
    ensures { out.new ≡ over (render (map place row.now) digits.now) out.old }
{
    for at in 0..row.len().min(out.len()) {
        out[at] = byte_at(digits, row[at]);
    }
}
