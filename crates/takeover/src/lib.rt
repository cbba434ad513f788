// A state that a reader of 24 places left, taken over by the reader of `line`.
#![tactic(auto)]

ghost use Rattle.std.specs.Prelude.{◌≡◌};
ghost use Rattle.takeover.specs.TakingOver.{state_of, with_more_places, refused_for, take_over, taken_as};

use line::{PLACES, Reader};
use refusals::Refusal;
use trailer::Order;

// How many bytes that reader held at most.
pub const KEPT_PLACES: usize = 24;

// Its state, with the fields that a reader has.
#[derive(Clone, Copy, Debug, PartialEq, Eq)]
pub struct Kept {
    pub held: [u8; KEPT_PLACES],
    pub len: usize,
    pub fed: u32,
    pub stray: u32,
    pub start: u32,
    pub order: Order,
}

#[derive(Clone, Copy, Debug, PartialEq, Eq)]
pub struct TakenOver {
    // What goes on with the line; a fresh reader of the same order where the state is refused.
    pub reader: Reader,
    // The state as it was handed in.
    pub kept: Kept,
    // Where the state is not well formed by its own bound.
    pub refusal: Option<Refusal>,
}

// The same state with the places of a reader: zeros in those that it did not have.
fn with_more_places(kept: Kept) -> Reader
    ensures { result ≡ with_more_places (state_of kept) }
{
    let mut held = [0u8; PLACES];
    held[..KEPT_PLACES].copy_from_slice(&kept.held);
    Reader {
        held,
        len: kept.len,
        fed: kept.fed,
        stray: kept.stray,
        start: kept.start,
        order: kept.order,
    }
}

// A state that is not well formed: nothing of it but its order goes on.
fn refused(kept: Kept) -> TakenOver
    ensures { taken_as result ≡ refused_for kept }
{
    TakenOver {
        reader: Reader::fresh_in(kept.order),
        kept,
        refusal: Some(Refusal::StateIllFormed),
    }
}

// Takes a kept state over. Where no more bytes are held than it has places, it is as well formed as the reader.
pub fn take_over(kept: Kept) -> TakenOver
    ensures { taken_as result ≡ take_over kept }
{
    if KEPT_PLACES < kept.len {
        return refused(kept);
    }
    let reader = with_more_places(kept);
    if !reader.is_well_formed() {
        return refused(kept);
    }
    TakenOver {
        reader,
        kept,
        refusal: None,
    }
}
