// Judging the bytes held when ETX comes.
ghost use Rattle.std.specs.Prelude.{◌≡◌, ◌≤◌, take};
ghost use Rattle.refusals.specs.Numbers.{outcome};
ghost use Rattle.line_rules.specs.Line.{places, judgement};

use super::PLACES;
use record::Record;
use refusals::Refusal;
use telegram::ETX;
use trailer::Order;

// Reads the first `len` bytes held, with ETX behind them, in the line's order. Every place is copied, so that the compiler moves many
// at once.
pub(crate) fn judge(held: [u8; PLACES], len: usize, order: Order) -> Result<Record, Refusal>
    requires { len ≤ places }
    ensures { outcome result ≡ judgement order (take len held) }
{
    let mut whole = [0u8; PLACES + 1];
    whole[..PLACES].copy_from_slice(&held);
    whole[len] = ETX;
    telegram::read::read_in(&whole[..=len], true, order)
}
