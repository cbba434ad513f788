// The calendar 1980 to 2079: days, months, weekdays, the day of the year and the time of day.
// Every public function is total: what lies outside the calendar is refused with the number that document 01 fixes.
#![tactic(auto)]

pub mod date;
mod month_starts;
pub mod time;
pub mod year;
