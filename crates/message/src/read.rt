// Reading one message, with control characters. The fifth character says by whose rules it is judged.
ghost use Rattle.std.specs.Prelude.{◌≡◌};
ghost use Rattle.trailer_rules.specs.declared.Order.TheVariants.{AsPrinted};
ghost use Rattle.remote_rules.specs.Rows.{is_command};
ghost use Rattle.refusals.specs.Numbers.{outcome};
ghost use Rattle.message_rules.specs.Messages.{message_of};

use super::Message;
use refusals::Refusal;
use trailer::Order;

// A colon in fifth place is that of a command, which no layout has there.
fn is_command(bytes: &[u8]) -> bool
    ensures { result ≡ is_command bytes.now }
{
    bytes.get(4) == Some(&b':')
}

// Reads one message: any bytes, with the trailer of a stamp in a named order.
pub fn read_in(bytes: &[u8], order: Order) -> Result<Message, Refusal>
    ensures { outcome result ≡ message_of order bytes.now }
{
    if is_command(bytes) {
        return Ok(Message::Remote(remote::read::read(bytes)?));
    }
    Ok(Message::Stamp(telegram::read::read_in(bytes, true, order)?))
}

// The same with its trailer as printed.
pub fn read(bytes: &[u8]) -> Result<Message, Refusal>
    ensures { outcome result ≡ message_of AsPrinted bytes.now }
{
    read_in(bytes, Order::AsPrinted)
}
