// A record is what a telegram carries: its layout and that layout's fields, and nothing else.
// So two records are equal exactly when they agree on every carried field.
#![tactic(auto)]

pub mod next;
pub mod rule;
pub mod season;
mod sixty;
pub mod utc;

pub use record_rules::{DatedLayout, Reception, Record, Status, TimeLayout};
