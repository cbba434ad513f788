// A message of the line: a telegram of one of the seven layouts, which stamps a time, or a remote command. No code.
#![tactic(auto)]

use record_rules::Record;
use remote_rules::Command;

#[derive(Clone, Copy, Debug, PartialEq, Eq)]
pub enum Message {
    Stamp(Record),
    Remote(Command),
}
