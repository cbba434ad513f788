// Writing one telegram into a lent buffer.
ghost use Rattle.std.specs.Prelude.{◌≡◌};
ghost use Rattle.refusals.specs.Refusals.{done};
ghost use Rattle.refusals.specs.Numbers.{outcome};
ghost use Rattle.lent_buffer.specs.Laying.{laid};
ghost use Rattle.trailer_rules.specs.declared.Order.TheVariants.{Exchanged};
ghost use Rattle.telegram_rules.specs.Writing.{as6021, record_by, record_to_write, control_of, order_of, telegram_in, telegram_of, telegram_for};

use super::{ETX, STX};
use layouts::coding::digits_out;
use layouts::rows::{own_layout, row_of};
use record::next::next_second;
use record::rule::check;
use record::{DatedLayout, Record};
use refusals::Refusal;
pub use telegram_rules::write::{Choice, Setting};
use trailer::{Order, exchange, place_in};

// The same fields in the 6021 layout.
fn as_6021(rec: Record) -> Result<Record, Refusal>
    ensures { outcome result ≡ as6021 rec }
{
    match rec {
        Record::Dated(_, status, weekday, date, time) => Ok(Record::Dated(
            DatedLayout::L6021,
            status,
            weekday,
            date,
            time,
        )),
        Record::TimeOnly(_, _) => Err(Refusal::NoDate),
    }
}

// The record that a setting writes: itself, if no rule refuses it, or its next second.
fn record_by(setting: Setting, rec: Record) -> Result<Record, Refusal>
    ensures { outcome result ≡ record_by setting rec }
{
    if setting.advance {
        return next_second(rec);
    }
    check(rec)?;
    Ok(rec)
}

// The record whose telegram is to be written.
fn record_to_write(choice: Choice, rec: Record) -> Result<Record, Refusal>
    ensures { outcome result ≡ record_to_write choice rec }
{
    match choice {
        Choice::Named(setting) | Choice::NamedIn(setting, _) => record_by(setting, rec),
        Choice::Unnamed => {
            check(rec)?;
            as_6021(rec)
        }
    }
}

fn control_of(choice: Choice) -> bool
    ensures { result ≡ control_of choice }
{
    match choice {
        Choice::Named(setting) | Choice::NamedIn(setting, _) => setting.control,
        Choice::Unnamed => true,
    }
}

fn order_of(choice: Choice) -> Order
    ensures { result ≡ order_of choice }
{
    match choice {
        Choice::NamedIn(_, order) => order,
        Choice::Named(_) | Choice::Unnamed => Order::AsPrinted,
    }
}

// Lays a record's telegram into the buffer as printed, if there is room for it: between STX and ETX with control characters, bare without.
fn lay(rec: Record, control: bool, out: &mut [u8]) -> Result<usize, Refusal>
    ensures { laid (done (telegram_of control rec)) out.old ≡ (outcome result, out.new) }
{
    let row = row_of(own_layout(rec));
    let start = usize::from(control);
    let length = row.len() + 2 * start;
    if out.len() < length {
        return Err(Refusal::BufferShort);
    }
    let digits = digits_out(rec);
    places::render(row, &digits, &mut out[start..]);
    if control {
        out[0] = STX;
        out[length - 1] = ETX;
    }
    Ok(length)
}

// The same, and then the trailer is exchanged where it stands.
fn lay_exchanged(rec: Record, control: bool, out: &mut [u8]) -> Result<usize, Refusal>
    ensures { laid (done (telegram_in Exchanged control rec)) out.old ≡ (outcome result, out.new) }
{
    let length = lay(rec, control, out)?;
    exchange(out, place_in(length, control));
    Ok(length)
}

// Writes one telegram at the front of the buffer. A refused write leaves every byte of it as it was.
pub fn write(rec: Record, choice: Choice, out: &mut [u8]) -> Result<usize, Refusal>
    ensures { laid (telegram_for choice rec) out.old ≡ (outcome result, out.new) }
{
    let good = record_to_write(choice, rec)?;
    let control = control_of(choice);
    match order_of(choice) {
        Order::AsPrinted => lay(good, control, out),
        Order::Exchanged => lay_exchanged(good, control, out),
    }
}
