// The rows of a region that are not what they were before an operation.
use super::output;
use std::io;

// The last row may be shorter.
const ROW: usize = 32;

fn print_row(rt: &impl Print, offset: usize, bytes: &[u8]) -> io::Result<()> {
    print!(rt; " {offset} ")?;
    output::hex(rt, bytes)?;
    println!(rt)
}

pub(crate) fn print_changed(rt: &impl Print, before: &[u8], after: &[u8]) -> io::Result<()> {
    let rows = before.chunks(ROW).zip(after.chunks(ROW));
    for (number, (was, row)) in rows.enumerate() {
        if row != was {
            print_row(rt, ROW * number, row)?;
        }
    }
    Ok(())
}
