// The listing: each row as bytes in a lent buffer.
#![tactic(auto)]

pub mod log_rows;
pub mod rows;
mod text;

ghost use Rattle.std.specs.Prelude.{◌≡◌};
ghost use Rattle.refusals.specs.Refusals.{done};
ghost use Rattle.lent_buffer.specs.Laying.{laid};
ghost use Rattle.refusals.specs.Numbers.{outcome};

use refusals::Refusal;

// No row of a line's listing has more bytes.
pub const LONGEST_ROW: usize = 69;

// No row of a log's listings has more bytes.
pub const LONGEST_LOG_ROW: usize = 83;

// Lays bytes at the front of the buffer, if there is room for them.
pub fn lay(bytes: &[u8], out: &mut [u8]) -> Result<usize, Refusal>
    ensures { laid (done bytes.now) out.old ≡ (outcome result, out.new) }
{
    if out.len() < bytes.len() {
        return Err(Refusal::BufferShort);
    }
    out[..bytes.len()].copy_from_slice(bytes);
    Ok(bytes.len())
}
