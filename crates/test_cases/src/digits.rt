// Cases of rows of places, of the layouts, and of what their digits mean. A row is handed in as the number of its places and its
// places, and digits are a byte for each slot.
use super::inputs;
use super::outputs::Shown;
use places::SLOTS;
use std::io;

// A row and the bytes that it is laid on. The digits are printed where none is refused.
pub(crate) fn scans(rt: &impl Print, bytes: &[u8]) -> io::Result<()> {
    let count = inputs::byte(bytes, 0) as usize;
    let rest = inputs::behind(bytes, 1);
    let found = places::scan(inputs::first(rest, count), inputs::behind(rest, count));
    match found.fault {
        Some(fault) => fault.print(rt),
        None => (0u8, found.digits.as_slice()).print(rt),
    }
}

// A row, digits, and the length of a buffer, over whose first bytes the row is laid.
pub(crate) fn renders(rt: &impl Print, bytes: &[u8]) -> io::Result<()> {
    let count = inputs::byte(bytes, 0) as usize;
    let rest = inputs::behind(bytes, 1);
    let others = inputs::behind(rest, count);
    let room = inputs::byte(others, SLOTS) as usize;
    let mut out = [inputs::UNTOUCHED; 32];
    if let Some(part) = out.get_mut(..room) {
        places::render(inputs::first(rest, count), &inputs::array(others), part);
    }
    out.as_slice().print(rt)
}

// The row of a layout.
pub(crate) fn row(rt: &impl Print, bytes: &[u8]) -> io::Result<()> {
    layouts::rows::row_of(inputs::layout(inputs::byte(bytes, 0))).print(rt)
}

pub(crate) fn layout(rt: &impl Print, bytes: &[u8]) -> io::Result<()> {
    layouts::rows::layout_of(bytes).print(rt)
}

// A layout and digits.
pub(crate) fn record_in(rt: &impl Print, bytes: &[u8]) -> io::Result<()> {
    let layout = inputs::layout(inputs::byte(bytes, 0));
    let digits = inputs::array(inputs::behind(bytes, 1));
    layouts::coding::record_in(layout, digits).print(rt)
}

pub(crate) fn digits_out(rt: &impl Print, bytes: &[u8]) -> io::Result<()> {
    let digits = layouts::coding::digits_out(inputs::rec(bytes));
    digits.as_slice().print(rt)
}
