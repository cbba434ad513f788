// The line: a reader that is fed piece by piece and loses no telegram, wherever a piece ends.
#![tactic(auto)]

mod judge;
pub mod pieces;
mod runs;
mod skip;

ghost use Rattle.std.specs.Prelude.{◌≡◌, ◌+◌, ◌%◌, ◌^◌, ◌<◌, true, [], ◌∷◌, length, take, drop};
ghost use Rattle.line_rules.specs.Hearing.{Refused};
ghost use Rattle.line.specs.Readers.{fed_as, ended_as, fresh_in, fresh_reader, well_formed, reader_of, feed_reader, end_reader, all_zero};
ghost use Rattle.line_rules.specs.Line.{line_with, is_started};
ghost use Rattle.line_rules.specs.Runs.{stray_run, WholeAt};
ghost use Rattle.ascii.specs.Control.{stx};

pub use line_rules::{Event, Heard};
use refusals::Refusal;
use std::num::{wrapping_add_u32, wrapping_sub_u32};
use telegram::{ETX, STX};
use trailer::Order;

// How many bytes a reader holds at most. A telegram has one more at most: its ETX, or the byte that is too many.
pub const PLACES: usize = 38;

const LONGEST: u32 = PLACES as u32 + 1;

#[derive(Clone, Copy, Debug, PartialEq, Eq)]
pub struct Reader {
    // The bytes of a started telegram, and zeros behind them.
    pub held: [u8; PLACES],
    pub len: usize,
    // Bytes fed, stray bytes, and the position of the first byte held. They run free and wrap.
    pub fed: u32,
    pub stray: u32,
    pub start: u32,
    // How the trailers on this line stand.
    pub order: Order,
}

#[derive(Clone, Copy, Debug, PartialEq, Eq)]
pub struct Fed {
    pub reader: Reader,
    pub taken: usize,
    pub heard: Heard,
}

#[derive(Clone, Copy, Debug, PartialEq, Eq)]
pub struct Ended {
    pub reader: Reader,
    pub heard: Heard,
}

// Whether these bytes are a started telegram, or none.
fn is_started(held: &[u8]) -> bool
    ensures { result ≡ is_started held.now }
{
    match held {
        [] => true,
        [first, rest @ ..] => *first == STX && runs::is_all_plain(rest),
    }
}

// Whether nothing but zeros stands here.
fn is_zero(held: &[u8]) -> bool
    ensures { result ≡ all_zero held.now }
{
    let mut zeros = true;
    for byte in held {
        zeros &= *byte == 0;
    }
    zeros
}

// A count that wraps.
fn moved(count: u32, by: usize) -> u32
    ensures { result ≡ (count + by) % 2 ^ 32 }
{
    wrapping_add_u32(count, (by % 4294967296) as u32)
}

// A state that is not well formed comes back as it was.
fn refused(state: Reader) -> Fed
    ensures { fed_as result ≡ record { reader = state; taken = 0; heard = Refused 15 } }
{
    Fed {
        reader: state,
        taken: 0,
        heard: Err(Refusal::StateIllFormed),
    }
}

impl Reader {
    // The reader outside a telegram, so many bytes on, and so many of them stray.
    fn outside(self, taken: usize, skipped: usize) -> Reader
        ensures { result ≡ reader_of (line_with [] ((self.fed + taken) % 2 ^ 32) ((self.stray + skipped) % 2 ^ 32) self.order) }
    {
        let fed = moved(self.fed, taken);
        Reader {
            held: [0; PLACES],
            len: 0,
            fed,
            stray: moved(self.stray, skipped),
            start: fed,
            order: self.order,
        }
    }

    // The same with an STX for the last byte that it was fed, which it holds.
    fn begun(self, taken: usize, skipped: usize) -> Reader
        ensures { result ≡ reader_of (line_with (stx ∷ []) ((self.fed + taken) % 2 ^ 32) ((self.stray + skipped) % 2 ^ 32) self.order) }
    {
        let fed = moved(self.fed, taken);
        let mut held = [0; PLACES];
        held[0] = STX;
        Reader {
            held,
            len: 1,
            fed,
            stray: moved(self.stray, skipped),
            start: wrapping_sub_u32(fed, 1),
            order: self.order,
        }
    }

    // Inside a telegram: plain bytes are held at once, and the byte behind them tells.
    fn feed_inside(self, piece: &[u8]) -> Fed
        requires { (well_formed self ≡ true) × (0 < self.len) }
        ensures { fed_as result ≡ feed_reader self piece.now }
    {
        let gathered = runs::gather(self.held, self.len, piece);
        let held = gathered.held;
        let added = gathered.added;
        let len = self.len + added;
        if added == piece.len() {
            return Fed {
                reader: Reader {
                    held,
                    len,
                    fed: moved(self.fed, added),
                    ..self
                },
                taken: added,
                heard: Ok(None),
            };
        }
        let byte = piece[added];
        let taken = added + 1;
        let size = len as u32;
        if byte == ETX {
            let answer = judge::judge(held, len, self.order);
            return Fed {
                reader: self.outside(taken, 0),
                taken,
                heard: Ok(Some(Event {
                    answer,
                    start: self.start,
                    size: size + 1,
                })),
            };
        }
        if byte == STX {
            return Fed {
                reader: self.begun(taken, 0),
                taken,
                heard: Ok(Some(Event {
                    answer: Err(Refusal::StxInside),
                    start: self.start,
                    size,
                })),
            };
        }
        Fed {
            reader: self.outside(taken, 0),
            taken,
            heard: Ok(Some(Event {
                answer: Err(Refusal::TooLong),
                start: self.start,
                size: LONGEST,
            })),
        }
    }

    // Outside a telegram, with an STX behind so many stray bytes: it begins a telegram, and what follows is fed to that.
    fn feed_begun(self, skipped: usize, piece: &[u8]) -> Fed
        requires { (skipped ≡ stray_run piece.now) × (skipped < length piece.now) }
        ensures { fed_as result ≡ feed_reader (reader_of (line_with [] self.fed self.stray self.order)) piece.now }
    {
        let first = skipped + 1;
        let later = self.begun(first, skipped).feed_inside(&piece[first..]);
        Fed {
            taken: first + later.taken,
            ..later
        }
    }

    // A telegram that stands whole in the piece, its ETX at `end`: it is read where it stands, and none of its bytes is held.
    fn feed_whole(self, skipped: usize, end: usize, piece: &[u8]) -> Fed
        requires { WholeAt piece.now skipped end }
        ensures { fed_as result ≡ feed_reader (reader_of (line_with [] self.fed self.stray self.order)) piece.now }
    {
        let taken = end + 1;
        let answer = telegram::read::read_in(&piece[skipped..taken], true, self.order);
        let size = taken - skipped;
        Fed {
            reader: self.outside(taken, skipped),
            taken,
            heard: Ok(Some(Event {
                answer,
                start: moved(self.fed, skipped),
                size: size as u32,
            })),
        }
    }

    // Outside a telegram, with an STX behind so many stray bytes: the byte behind the plain ones tells whether a whole telegram stands there.
    fn feed_from_stx(self, skipped: usize, piece: &[u8]) -> Fed
        requires { (skipped ≡ stray_run piece.now) × (skipped < length piece.now) }
        ensures { fed_as result ≡ feed_reader (reader_of (line_with [] self.fed self.stray self.order)) piece.now }
    {
        let first = skipped + 1;
        let end = first + runs::roomy_run(1, &piece[first..]);
        if end < piece.len() && piece[end] == ETX {
            self.feed_whole(skipped, end, piece)
        } else {
            self.feed_begun(skipped, piece)
        }
    }

    // Outside a telegram: the bytes before the first STX are stray, and counted at once. Where telegrams stand one behind another
    // there are none, so the first byte is looked at before any block.
    fn feed_outside(self, piece: &[u8]) -> Fed
        ensures { fed_as result ≡ feed_reader (reader_of (line_with [] self.fed self.stray self.order)) piece.now }
    {
        if skip::begins_with_stx(piece) {
            return self.feed_from_stx(0, piece);
        }
        let skipped = skip::stray_run(piece);
        if skipped == piece.len() {
            return Fed {
                reader: self.outside(skipped, skipped),
                taken: skipped,
                heard: Ok(None),
            };
        }
        self.feed_from_stx(skipped, piece)
    }

    // A reader that was fed nothing, of a line whose trailers stand as printed.
    pub fn fresh() -> Reader
        ensures { result ≡ fresh_reader }
    {
        Reader::fresh_in(Order::AsPrinted)
    }

    // The same of a line in a named order.
    pub fn fresh_in(order: Order) -> Reader
        ensures { result ≡ fresh_in order }
    {
        Reader {
            held: [0; PLACES],
            len: 0,
            fed: 0,
            stray: 0,
            start: 0,
            order,
        }
    }

    // Whether a state is one that feeding leads to; any other is refused.
    pub fn is_well_formed(self) -> bool
        ensures { result ≡ well_formed self }
    {
        if self.len == 0 {
            return is_zero(&self.held) && self.start == self.fed;
        }
        if self.len > PLACES {
            return false;
        }
        if !is_started(&self.held[..self.len]) {
            return false;
        }
        if !is_zero(&self.held[self.len..]) {
            return false;
        }
        self.start == wrapping_sub_u32(self.fed, self.len as u32)
    }

    // Feeds bytes as they come, up to the first event. What was not taken is to be fed next.
    pub fn feed(self, piece: &[u8]) -> Fed
        ensures { fed_as result ≡ feed_reader self piece.now }
    {
        if !self.is_well_formed() {
            return refused(self);
        }
        if self.len == 0 {
            self.feed_outside(piece)
        } else {
            self.feed_inside(piece)
        }
    }

    // The end of the line.
    pub fn end(self) -> Ended
        ensures { ended_as result ≡ end_reader self }
    {
        if !self.is_well_formed() {
            return Ended {
                reader: self,
                heard: Err(Refusal::StateIllFormed),
            };
        }
        let reader = self.outside(0, 0);
        if self.len == 0 {
            return Ended {
                reader,
                heard: Ok(None),
            };
        }
        Ended {
            reader,
            heard: Ok(Some(Event {
                answer: Err(Refusal::EndedInside),
                start: self.start,
                size: self.len as u32,
            })),
        }
    }
}
