// The check of a block.
ghost use Rattle.std.specs.Prelude.{◌≡◌, ◌≤◌, length};
ghost use Rattle.log_rules.specs.Block.{check_place};
ghost use Rattle.log_rules.specs.Check.{check_of};

use super::CHECK_PLACE;

const MODULUS: u32 = 65521;

// Each byte times its place counted from 1. The sum of 510 bytes stays below 2^25, so one reduction at the end is enough.
pub(crate) fn check_of(body: &[u8]) -> u16
    requires { length body.now ≤ check_place }
    ensures { result ≡ check_of body.now }
{
    let mut sum: u32 = 0;
    for (at, byte) in body.iter().enumerate() {
        sum += u32::from(*byte) * (at as u32 + 1);
    }
    (sum % MODULUS) as u16
}
