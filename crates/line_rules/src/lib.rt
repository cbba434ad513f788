// What a serial line tells, byte by byte: no code, and no reader.
#![tactic(auto)]

use record_rules::Record;
use refusals::Refusal;

// A telegram judged, or bytes refused.
#[derive(Clone, Copy, Debug, PartialEq, Eq)]
pub struct Event {
    pub answer: Result<Record, Refusal>,
    // The position of its first byte, and how many bytes it has.
    pub start: u32,
    pub size: u32,
}

// What a call heard: an event, nothing, or why the reader's state was refused, with no event and no byte taken.
pub type Heard = Result<Option<Event>, Refusal>;
