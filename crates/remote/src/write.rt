// Writing a command into a lent buffer.
ghost use Rattle.std.specs.Prelude.{◌≡◌};
ghost use Rattle.lent_buffer.specs.Laying.{laid};
ghost use Rattle.refusals.specs.Numbers.{outcome};
ghost use Rattle.remote_rules.specs.Writing.{telegram_for};

use super::Command;
use super::coding::{digits_out, own_form};
use super::rows::row_of;
use super::rule::check;
use refusals::Refusal;

// Writes a command at the front of the buffer. A refused write leaves every byte of it as it was.
pub fn write(command: Command, out: &mut [u8]) -> Result<usize, Refusal>
    ensures { laid (telegram_for command) out.old ≡ (outcome result, out.new) }
{
    check(command)?;
    let row = row_of(own_form(command));
    let length = row.len();
    if out.len() < length {
        return Err(Refusal::BufferShort);
    }
    places::render(row, &digits_out(command), out);
    Ok(length)
}
