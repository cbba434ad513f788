// The one rule for a message: that of its record, or that of its command.
ghost use Rattle.std.specs.Prelude.{◌≡◌};
ghost use Rattle.refusals.specs.Numbers.{verdict};
ghost use Rattle.message_rules.specs.Messages.{refusal_of};

use super::Message;
use refusals::Refusal;

// Refuses a message by its rule, with 5, 6, 7 or 8.
pub fn check(message: Message) -> Result<(), Refusal>
    ensures { verdict result ≡ refusal_of message }
{
    match message {
        Message::Stamp(rec) => record::rule::check(rec),
        Message::Remote(command) => remote::rule::check(command),
    }
}
