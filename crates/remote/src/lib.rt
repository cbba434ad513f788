// Remote commands between STX and ETX: TIM, DIF and POS, read and written by rows of places. A command has no setting: nothing is
// advanced, nothing is bare, and its trailer is CR LF on lines of either order.
#![tactic(auto)]

mod coding;
pub mod read;
mod rows;
pub mod rule;
pub mod write;

pub use remote_rules::{Angle, Command, EastWest, Moment, NorthSouth, Position};
