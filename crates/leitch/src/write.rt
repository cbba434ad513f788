// Writing a reply into a lent buffer. It has no setting: no second advance, no control characters.
ghost use Rattle.std.specs.Prelude.{◌≡◌, length};
ghost use Rattle.lent_buffer.specs.Laying.{laid};
ghost use Rattle.leitch_rules.specs.Writing.{written};
ghost use Rattle.refusals.specs.Numbers.{outcome};

use super::Reply;
use super::coding::digits_out;
use super::row::{PLACES, row};
use super::rule::{check_day, check_fields};
use refusals::Refusal;

// Writes a reply at the front of the buffer. A refused write leaves every byte of it as it was.
pub fn write(reply: Reply, out: &mut [u8]) -> Result<usize, Refusal>
    ensures { laid (written reply (length out.old)) out.old ≡ (outcome result, out.new) }
{
    check_fields(reply)?;
    if out.len() < PLACES {
        return Err(Refusal::BufferShort);
    }
    check_day(reply)?;
    places::render(row(), &digits_out(reply), out);
    Ok(PLACES)
}
