// The trailer, which is the last two bytes of what stands between STX and ETX, and the order of its CR and LF.
#![tactic(auto)]

ghost use Rattle.std.specs.Prelude.{◌≡◌};
ghost use Rattle.trailer_rules.specs.Trailer.{size_from, trailer_at, exchange_at};

pub use trailer_rules::Order;

// How many bytes stand from the trailer on: its two, and ETX behind them where there are control characters.
fn size_from(control: bool) -> usize
    ensures { result ≡ size_from control }
{
    if control { 3 } else { 2 }
}

// Where the trailer begins in a telegram of so many bytes; 0 in one that is too short to have one.
pub fn place_in(length: usize, control: bool) -> usize
    ensures { result ≡ trailer_at control length }
{
    length.saturating_sub(size_from(control))
}

// Exchanges the byte at a place with the one behind it, where both are there.
pub fn exchange(bytes: &mut [u8], at: usize)
    ensures { bytes.new ≡ exchange_at at bytes.old }
{
    if at < bytes.len().saturating_sub(1) {
        bytes.swap(at, at + 1);
    }
}
