// The time of day.

// A time as a telegram carries it; whether the day has it is asked by each function.
#[derive(Clone, Copy, Debug, PartialEq, Eq)]
pub struct Time {
    pub hour: u8,
    pub minute: u8,
    pub second: u8,
}

// The next second, and whether it belongs to the same day or to the next.
#[derive(Clone, Copy, Debug, PartialEq, Eq)]
pub enum NextSecond {
    SameDay(Time),
    NextDay(Time),
}
