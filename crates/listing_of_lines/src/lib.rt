// A line, listed: the rows of its events stand one behind another in a lent buffer, piece by piece.
#![tactic(auto)]

ghost use Rattle.std.specs.Prelude.{◌≡◌, ◌++◌, length, drop};
ghost use Rattle.lent_buffer.specs.Laying.{laid};
ghost use Rattle.refusals.specs.Numbers.{outcome};
ghost use Rattle.line_rules.specs.Hearing.{heard_as};
ghost use Rattle.listing.specs.Texts.{told_as};
ghost use Rattle.listing_of_lines.specs.Pages.{row_for, heard_in_numbers, page_of, listed_for, listed_as};

use line::{Heard, Reader};
use listing::rows::row;
use record::Record;
use refusals::Refusal;

// The reader after the bytes that were taken, how many they are, how many bytes their rows take, and how the call ended: the whole
// piece was taken, or a refusal ended it.
#[derive(Clone, Copy, Debug, PartialEq, Eq)]
pub struct Listed {
    pub reader: Reader,
    pub taken: usize,
    pub used: usize,
    pub ending: Result<(), Refusal>,
}

// An event, of which a caller may tell a refusal with any number.
#[derive(Clone, Copy, Debug, PartialEq, Eq)]
pub struct Told {
    pub answer: Result<Record, u8>,
    pub start: u32,
    pub size: u32,
}

// The row of what was heard, at the front of a buffer. A refusal has any number, also that of a state that was refused.
pub fn row_for(told: Result<Option<Told>, u8>, out: &mut [u8]) -> Result<usize, u8>
    ensures { laid (row_for (heard_in_numbers told)) out.old ≡ (told_as result, out.new) }
{
    match told? {
        Some(event) => row(event.start, event.answer, out).map_err(Refusal::number),
        None => Ok(0),
    }
}

// The same of what a reader hands out.
pub fn row_of(heard: Heard, out: &mut [u8]) -> Result<usize, Refusal>
    ensures { laid (row_for (heard_as heard)) out.old ≡ (outcome result, out.new) }
{
    match heard? {
        Some(event) => row(event.start, event.answer.map_err(Refusal::number), out),
        None => Ok(0),
    }
}

// The rows of a piece's events, each in the room behind the last. Where the buffer has no room for a row, the bytes of its
// event are not taken: they are given again, with the rest of the piece and another buffer.
pub fn list(reader: Reader, piece: &[u8], out: &mut [u8]) -> Listed
    ensures { (listed_as result ≡ listed_for (page_of (length out.old) reader piece.now)) × (out.new ≡ (page_of (length out.old) reader piece.now).bytes ++ drop result.used out.old) }
{
    if !reader.is_well_formed() {
        return Listed {
            reader,
            taken: 0,
            used: 0,
            ending: Err(Refusal::StateIllFormed),
        };
    }
    let mut next = reader;
    let mut taken = 0;
    let mut used = 0;
    while taken < piece.len() {
        let fed = next.feed(&piece[taken..]);
        match row_of(fed.heard, &mut out[used..]) {
            Ok(n) => {
                used += n;
                next = fed.reader;
                taken += fed.taken;
            }
            Err(refusal) => {
                return Listed {
                    reader: next,
                    taken,
                    used,
                    ending: Err(refusal),
                };
            }
        }
    }
    Listed {
        reader: next,
        taken,
        used,
        ending: Ok(()),
    }
}
