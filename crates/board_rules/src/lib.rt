// The parameter byte of a clock board: eight switches that say how the board sends on its serial line. What they mean: no code.
#![tactic(auto)]

pub mod of_6036;
pub mod of_6038;

// The parity bit of a character.
#[derive(Clone, Copy, Debug, PartialEq, Eq)]
pub enum Parity {
    None,
    Even,
    Odd,
}
