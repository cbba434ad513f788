// The seven layouts as data: a row of places each, without STX and ETX, and the layout that a length tells.
ghost use Rattle.std.specs.Prelude.{◌≡◌};
ghost use Rattle.layouts_rules.specs.Layouts.{row_numbers, own_layout, layout_of, by_trailer};
ghost use Rattle.refusals.specs.Numbers.{outcome};

use super::Layout;
use super::slots::{D0, D1, H0, H1, M0, M1, MO0, MO1, S0, S1, ST, WD, Y0, Y1, Y2, Y3};
use record::{DatedLayout, Record, TimeLayout};
use refusals::Refusal;

const LF: u8 = b'\n';

const CR: u8 = b'\r';

const SP: u8 = b' ';

// The row of a layout: the table of document 01.
#[rattlefmt::skip]
pub fn row_of(layout: Layout) -> &'static [u8]
    ensures { result.now ≡ row_numbers layout }
{
    match layout {
        Layout::Dated(dated) => match dated {
            DatedLayout::L6021 => &[ST, WD, H1, H0, M1, M0, S1, S0, D1, D0, MO1, MO0, Y1, Y0, LF, CR],
            DatedLayout::L2000 => &[ST, WD, H1, H0, M1, M0, S1, S0, D1, D0, MO1, MO0, Y3, Y2, Y1, Y0, LF, CR],
            DatedLayout::L5500 => &[ST, SP, H1, H0, M1, M0, S1, S0, SP, D1, D0, MO1, MO0, Y1, Y0, SP, WD, CR, LF],
            DatedLayout::L5050 => &[H1, H0, SP, M1, M0, SP, S1, S0, SP, D1, D0, SP, MO1, MO0, SP, Y1, Y0, SP, ST, WD, SP, CR, LF],
        },
        Layout::TimeOnly(brief) => match brief {
            TimeLayout::T6021 => &[H1, H0, M1, M0, S1, S0, LF, CR],
            TimeLayout::T5500 => &[H1, H0, M1, M0, S1, S0, CR, LF],
            TimeLayout::T5050 => &[H1, H0, SP, M1, M0, SP, S1, S0, SP, CR, LF],
        },
    }
}

// A record's own layout.
pub fn own_layout(rec: Record) -> Layout
    ensures { result ≡ own_layout rec }
{
    match rec {
        Record::Dated(layout, _, _, _, _) => Layout::Dated(layout),
        Record::TimeOnly(layout, _) => Layout::TimeOnly(layout),
    }
}

// Of two layouts with one length, the order of LF and CR decides.
fn by_trailer(body: &[u8]) -> Layout
    ensures { result ≡ by_trailer body.now }
{
    match body {
        [_, _, _, _, _, _, LF, CR, ..] => Layout::TimeOnly(TimeLayout::T6021),
        _ => Layout::TimeOnly(TimeLayout::T5500),
    }
}

// The layout of a body by its length, or 1.
pub fn layout_of(body: &[u8]) -> Result<Layout, Refusal>
    ensures { outcome result ≡ layout_of body.now }
{
    match body.len() {
        16 => Ok(Layout::Dated(DatedLayout::L6021)),
        8 => Ok(by_trailer(body)),
        18 => Ok(Layout::Dated(DatedLayout::L2000)),
        19 => Ok(Layout::Dated(DatedLayout::L5500)),
        23 => Ok(Layout::Dated(DatedLayout::L5050)),
        11 => Ok(Layout::TimeOnly(TimeLayout::T5050)),
        _ => Err(Refusal::Length),
    }
}
