// Reading a command. Each refusal is a test of its own over all of it, and the first that holds is given.
ghost use Rattle.std.specs.Prelude.{◌≡◌};
ghost use Rattle.refusals.specs.Refusals.{unless};
ghost use Rattle.remote_rules.specs.Reading.{carried, bytes_refusal, command_of};
ghost use Rattle.refusals.specs.Numbers.{outcome};

use super::Command;
use super::coding::command_in;
use super::rows::{form_of, row_of};
use super::rule::{check, is_spelled_well};
use refusals::Refusal;
use remote_rules::rows::Form;
use telegram::read::is_framed;

// Bytes of a known form.
fn read_as(form: Form, bytes: &[u8]) -> Result<Command, Refusal>
    ensures { outcome result ≡ unless (bytes_refusal form bytes.now) (carried form bytes.now) }
{
    let found = places::scan(row_of(form), bytes);
    if let Some(fault) = found.fault {
        return Err(fault);
    }
    let digits = found.digits;
    if !is_spelled_well(form, digits) {
        return Err(Refusal::OutOfRange);
    }
    let command = command_in(form, digits);
    check(command)?;
    Ok(command)
}

// Reads any bytes as one command, with control characters.
pub fn read(bytes: &[u8]) -> Result<Command, Refusal>
    ensures { outcome result ≡ command_of bytes.now }
{
    let form = form_of(bytes)?;
    if !is_framed(bytes) {
        return Err(Refusal::Frame);
    }
    read_as(form, bytes)
}
