// One telegram: read and written exactly as the tables say; and several written one behind another.
#![tactic(auto)]

pub mod read;
pub mod several;
pub mod write;

pub const STX: u8 = 2;

pub const ETX: u8 = 3;
