// What the calendar 1980 to 2079 is: no code. Dates and times of day as they are handed about, and each answer's cases.
#![tactic(auto)]

pub mod date;
pub mod time;
