// Remote commands: what a board is told or asked between STX and ETX, and what it answers. No code.
#![tactic(auto)]

pub mod rows;

use calendar_rules::date::Date;
use calendar_rules::time::Time;

// The time that a TIM carries.
#[derive(Clone, Copy, Debug, PartialEq, Eq)]
pub struct Moment {
    pub time: Time,
    pub date: Date,
    // 1 is Monday and 7 is Sunday.
    pub weekday: u8,
}

#[derive(Clone, Copy, Debug, PartialEq, Eq)]
pub enum EastWest {
    West,
    East,
}

#[derive(Clone, Copy, Debug, PartialEq, Eq)]
pub enum NorthSouth {
    North,
    South,
}

// Degrees, minutes, and the two digits that stand behind the minutes.
#[derive(Clone, Copy, Debug, PartialEq, Eq)]
pub struct Angle {
    pub degrees: u16,
    pub minutes: u8,
    pub fraction: u8,
}

#[derive(Clone, Copy, Debug, PartialEq, Eq)]
pub struct Position {
    pub east_west: EastWest,
    pub longitude: Angle,
    pub north_south: NorthSouth,
    pub latitude: Angle,
}

// A command as its characters carry it; whether it is a good one is asked by each function.
#[derive(Clone, Copy, Debug, PartialEq, Eq)]
pub enum Command {
    // TIM: the status as its two characters say it, and the time.
    Tim(u8, Moment),
    // TIM with the status alone, which asks.
    TimAsked(u8),
    // DIF: what is to be added to local time, in minutes.
    Dif(i16),
    // DIF with nothing behind the colon, which asks.
    DifAsked,
    // POS: where the board stands.
    Pos(Position),
    // POS with nothing behind the colon, which asks.
    PosAsked,
}
