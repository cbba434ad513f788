// A record is what a telegram carries: its layout and that layout's fields, and nothing else.
// So two records are equal exactly when they agree on every carried field. What is right of it stands here: no code.
#![tactic(auto)]

pub mod season;

use calendar_rules::date::Date;
use calendar_rules::time::Time;

// The layouts with a date.
#[derive(Clone, Copy, Debug, PartialEq, Eq)]
pub enum DatedLayout {
    L6021,
    L2000,
    L5500,
    L5050,
}

// The layouts that carry the time of day alone: 6021t, 5500t and 5050t.
#[derive(Clone, Copy, Debug, PartialEq, Eq)]
pub enum TimeLayout {
    T6021,
    T5500,
    T5050,
}

#[derive(Clone, Copy, Debug, PartialEq, Eq)]
pub enum Reception {
    Invalid,
    Crystal,
    Radio,
    High,
}

#[derive(Clone, Copy, Debug, PartialEq, Eq)]
pub struct Status {
    pub reception: Reception,
    pub daylight: bool,
    pub utc: bool,
    pub announced: bool,
}

#[derive(Clone, Copy, Debug, PartialEq, Eq)]
pub enum Record {
    // Layout, status, weekday (1 Monday to 7 Sunday), date, time.
    Dated(DatedLayout, Status, u8, Date, Time),
    TimeOnly(TimeLayout, Time),
}
