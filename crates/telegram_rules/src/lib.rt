// One telegram: which bytes are one, and which bytes are written of a record. No code.
#![tactic(auto)]

pub mod write;
