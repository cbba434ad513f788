// A captured line, listed to its end.
ghost use Rattle.std.specs.Prelude.{IfSome, OnOk};
ghost use Rattle.std.specs.Io.KnownBytes.{Appends};
ghost use Rattle.listing_of_lines.specs.Whole.{listing_in};

use super::failure::Failure;
use super::reads;
use listing_output::Printer;
use std::io;
use std::io::{Read, Write};
use trailer::Order;

// How many bytes are read at once.
const ROOM: usize = 65536;

// Nothing says that the input ends, so the turns are counted up to a number that no run comes to. One buffer is lent to all of them: to
// make it anew for each would take longer than to skip the stray bytes in it. Where a read fails the listing ends without its count of
// stray bytes.
pub(crate) fn list<S: Read, W: Write>(
    order: Order,
    capture: &mut S,
    to: &mut W,
) -> Result<(), Failure>
    ensures { OnOk result (IfSome (S.remaining capture.old) (λ bytes. Appends (W.contents to.old) (W.contents to.new) (listing_in order bytes))) }
{
    let mut buffer = [0u8; ROOM];
    let mut printer = Printer::start_in(to, order);
    printer.output?;
    for _ in 0..u64::MAX {
        let read = reads::next(capture, &mut buffer).map_err(Failure::CaptureUnread)?;
        let Some(count) = read else {
            printer.end(to).output?;
            return Ok(());
        };
        printer = printer.piece(to, &buffer[..count]);
        printer.output?;
    }
    Err(Failure::CaptureUnread(io::Error::other("too many reads")))
}
