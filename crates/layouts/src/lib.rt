// The seven layouts: their rows of places, how a layout is found, and what its digits mean.
#![tactic(auto)]

pub mod coding;
pub mod rows;
pub mod slots;

pub use layouts_rules::Layout;
