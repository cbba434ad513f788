// The reply to a Leitch generator. No code.
#![tactic(auto)]

use calendar_rules::date::Date;
use calendar_rules::time::Time;

// A reply as its characters carry it; whether it is a good one is asked by each function.
#[derive(Clone, Copy, Debug, PartialEq, Eq)]
pub struct Reply {
    pub time: Time,
    pub millisecond: u16,
    pub date: Date,
    // 1 January is 1.
    pub day_of_year: u16,
    // 1 is Monday and 7 is Sunday.
    pub weekday: u8,
    // The character as it stands.
    pub status: u8,
}
