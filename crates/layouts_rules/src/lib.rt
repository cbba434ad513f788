// The seven layouts: the row of places of each, and what its digits mean. No code.
#![tactic(auto)]

use record_rules::{DatedLayout, TimeLayout};

// Four layouts with a date, three with the time alone.
#[derive(Clone, Copy, Debug, PartialEq, Eq)]
pub enum Layout {
    Dated(DatedLayout),
    TimeOnly(TimeLayout),
}
