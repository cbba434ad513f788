// Dates.

// A date as a telegram carries it; whether the calendar has it is asked by each function.
#[derive(Clone, Copy, Debug, PartialEq, Eq)]
pub struct Date {
    pub year: u16,
    pub month: u8,
    pub day: u8,
}
