// One message of the line: a telegram of one of the seven layouts, which stamps a time, or a remote command.
#![tactic(auto)]

pub mod read;
pub mod rule;

pub use message_rules::Message;
