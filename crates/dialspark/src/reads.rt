// One read, whose failure is never taken for the end.
ghost use Rattle.std.specs.Prelude.{◌≤◌, length, IfOk};
ghost use Rattle.std.specs.Io.KnownBytes.{ReadConsumes};
ghost use Rattle.dialspark.specs.Reads.{Within, Takes};

use std::io;
use std::io::{ErrorKind, Read};

// A read that a signal broke off is made again. The turns are counted up to a number that no run comes to.
fn read<S: Read>(source: &mut S, buffer: &mut [u8]) -> io::Result<usize>
    ensures within { IfOk result (λ count. count ≤ length buffer.new) }
    ensures taken { ReadConsumes (S.remaining source.old) (S.remaining source.new) result buffer.new }
{
    for _ in 0..u64::MAX {
        match source.read(buffer) {
            Err(why) if why.kind() == ErrorKind::Interrupted => {}
            answer => return answer,
        }
    }
    Err(io::Error::from(ErrorKind::Interrupted))
}

// As many bytes as are there and have room stand at the start of the buffer, at least one. At the end there are none.
pub(crate) fn next<S: Read>(source: &mut S, buffer: &mut [u8]) -> io::Result<Option<usize>>
    ensures within { Within result (length buffer.new) }
    ensures taken { Takes result (S.remaining source.old) (S.remaining source.new) buffer.new }
{
    match read(source, buffer)? {
        0 => Ok(None),
        count => Ok(Some(count)),
    }
}
