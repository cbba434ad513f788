// The requests that come over the serial line: a letter says what is asked for, and two digits behind it how long the answer waits.
#![tactic(auto)]

ghost use Rattle.std.specs.Prelude.{◌≡◌, [], ◌∷◌, map};
ghost use Rattle.places_rules.specs.Places.{place};
ghost use Rattle.requests.specs.Requests.{delay_for, request_in, request_of};
ghost use Rattle.refusals.specs.Numbers.{outcome};

use places::FIRST_CODE;
use refusals::Refusal;

// What is asked for.
#[derive(Clone, Copy, Debug, PartialEq, Eq)]
pub enum Asked {
    Time,
    TimeAndDate,
    UtcTimeAndDate,
}

#[derive(Clone, Copy, Debug, PartialEq, Eq)]
pub struct Request {
    pub asked: Asked,
    // How long the answer waits, in milliseconds.
    pub delay_ms: u16,
}

// The places of the count's two digits.
const HIGH: u8 = FIRST_CODE;

const LOW: u8 = FIRST_CODE + 1;

// Ten milliseconds a count. Whatever two bytes hold fits, so that nothing has to be known of the digits.
fn delay(high: u8, low: u8) -> u16
    ensures { result ≡ delay_for high low }
{
    10 * (16 * high as u16 + low as u16)
}

// Bytes that must fit a row: as many as it has places, each right for its place.
fn by_row(asked: Asked, row: &[u8], bytes: &[u8]) -> Result<Request, Refusal>
    ensures { outcome result ≡ request_in ((asked, map place row.now) ∷ []) bytes.now }
{
    if bytes.len() != row.len() {
        return Err(Refusal::NoRequest);
    }
    let found = places::scan(row, bytes);
    if found.fault.is_some() {
        return Err(Refusal::NoRequest);
    }
    let digits = found.digits;
    Ok(Request {
        asked,
        delay_ms: delay(digits[0], digits[1]),
    })
}

// Reads a request: any bytes. A capital letter stands alone, and a small one in front of two digits.
pub fn read(bytes: &[u8]) -> Result<Request, Refusal>
    ensures { outcome result ≡ request_of bytes.now }
{
    if bytes.is_empty() {
        return Err(Refusal::NoRequest);
    }
    let letter = bytes[0];
    let alone = [letter];
    let delayed = [letter, HIGH, LOW];
    match letter {
        b'U' => by_row(Asked::Time, &alone, bytes),
        b'D' => by_row(Asked::TimeAndDate, &alone, bytes),
        b'G' => by_row(Asked::UtcTimeAndDate, &alone, bytes),
        b'u' => by_row(Asked::Time, &delayed, bytes),
        b'd' => by_row(Asked::TimeAndDate, &delayed, bytes),
        b'g' => by_row(Asked::UtcTimeAndDate, &delayed, bytes),
        _ => Err(Refusal::NoRequest),
    }
}
