// Reading a reply. Each refusal is a test of its own over all of it, and the lowest that holds is given.
ghost use Rattle.std.specs.Prelude.{◌≡◌};
ghost use Rattle.leitch_rules.specs.Reading.{reply_of};
ghost use Rattle.refusals.specs.Numbers.{outcome};

use super::Reply;
use super::coding::reply_in;
use super::row::{PLACES, row};
use super::rule::{check_day, check_fields};
use refusals::Refusal;

// Reads any bytes as a reply.
pub fn read(bytes: &[u8]) -> Result<Reply, Refusal>
    ensures { outcome result ≡ reply_of bytes.now }
{
    if bytes.len() != PLACES {
        return Err(Refusal::Length);
    }
    let found = places::scan(row(), bytes);
    if let Some(fault) = found.fault {
        return Err(fault);
    }
    let reply = reply_in(found.digits);
    check_fields(reply)?;
    check_day(reply)?;
    Ok(reply)
}
