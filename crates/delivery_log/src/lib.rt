// The delivery log: accepted telegrams in blocks of 512 bytes, over a lent region.
#![tactic(auto)]

pub mod add;
pub mod block;
mod check;
pub mod read_back;
pub mod verify;

pub use log_rules::Place;

// A block has 15 slots of 32 bytes.
pub const SLOTS: usize = 15;

pub const SLOT_SIZE: usize = 32;

// Behind the slots stands how many of them are used.
pub const COUNT_PLACE: usize = 480;

// The last two bytes are the check of those before them.
pub const CHECK_PLACE: usize = 510;

pub const BLOCK_SIZE: usize = 512;
