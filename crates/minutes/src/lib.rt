// The difference between local time and UTC as a signed number of minutes: made of a sign, hours and minutes, and taken apart into them.
#![tactic(auto)]

ghost use Rattle.std.specs.Prelude.{◌≡◌, ◌+◌, ◌*◌, pos};
ghost use Rattle.std.specs.Int.Signed.{quot_z, rem_z};
ghost use Rattle.minutes.specs.Minutes.{signed, is_minus, size_of, hours_of, minutes_of, within12_hours};

// The difference of a sign, hours and minutes: at most 60 * 255 + 255 minutes, which an i16 holds.
pub fn signed(minus: bool, hours: u8, minutes: u8) -> i16
    ensures { result ≡ signed minus (60 * hours + minutes) }
{
    let size = (60 * hours as u16 + minutes as u16) as i16;
    if minus { -size } else { size }
}

// Whether a difference is below zero.
pub fn is_minus(difference: i16) -> bool
    ensures { result ≡ is_minus difference }
{
    difference < 0
}

// How many minutes a difference has, without its sign.
pub fn size(difference: i16) -> u16
    ensures { result ≡ size_of difference }
{
    difference.unsigned_abs()
}

// A difference in whole hours, with its sign.
fn in_hours(difference: i16) -> i16
    ensures { result ≡ quot_z difference (pos 60) }
{
    difference / 60
}

// The minutes that a difference has over its whole hours, with its sign.
fn over_hours(difference: i16) -> i16
    ensures { result ≡ rem_z difference (pos 60) }
{
    difference % 60
}

// How many whole hours a difference has, without its sign.
pub fn hours_of(difference: i16) -> u16
    ensures { result ≡ hours_of difference }
{
    size(in_hours(difference))
}

// How many minutes a difference has over its whole hours, without its sign.
pub fn minutes_of(difference: i16) -> u8
    ensures { result ≡ minutes_of difference }
{
    size(over_hours(difference)) as u8
}

// Whether a difference is at most 12 hours, either way.
pub fn is_within_12_hours(difference: i16) -> bool
    ensures { result ≡ within12_hours difference }
{
    size(difference) <= 720
}
