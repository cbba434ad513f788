// The delivery log: what a good block is, and what verify, add and read back answer. No code.
#![tactic(auto)]

ghost use Rattle.std.specs.Prelude.{◌≡◌};
ghost use Rattle.log_rules.specs.Verify.{refusal_of};

use refusals::Refusal;

// Where a telegram stands: both numbers from 0.
#[derive(Clone, Copy, Debug, PartialEq, Eq)]
pub struct Place {
    pub block: usize,
    pub slot: usize,
}

// What is wrong with a region: it is not whole blocks; or a block is bad, the first of them by its number.
#[derive(Clone, Copy, Debug, PartialEq, Eq)]
pub enum Damage {
    NotWholeBlocks,
    BadBlock(usize),
}

impl From<Damage> for Refusal {
    ghost from_gives = { λ damage refusal. refusal ≡ refusal_of damage };

    fn from(damage: Damage) -> Refusal {
        match damage {
            Damage::NotWholeBlocks => Refusal::NotWholeBlocks,
            Damage::BadBlock(_) => Refusal::BlockBad,
        }
    }
}
