// The answer to a Leitch generator: 31 characters, read and written by a row of places. It never travels between STX and ETX.
// "Answer" is the word for what a function gives, so what stands in these characters is called a reply.
#![tactic(auto)]

mod coding;
pub mod read;
mod row;
mod rule;
pub mod write;

pub use leitch_rules::Reply;
