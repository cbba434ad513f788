// A whole piece used up: the unread end of it is fed again from its middle until nothing is left, and each event is handed on.
ghost use Rattle.std.specs.Prelude.{◌≡◌};
ghost use Rattle.line.specs.Pieces.{room, passed_as, passed_for, passing};

use super::{Event, Reader};
use refusals::Refusal;

// How many events one call has room for.
pub const ROOM: usize = 32;

// The events of a piece in their order. A byte gives at most one event, so of a piece of at most `ROOM` bytes nothing is
// left; of a longer one the bytes from `taken` on are left where `ROOM` events stand before its end.
#[derive(Clone, Copy, Debug, PartialEq, Eq)]
pub struct Passed {
    // So many events, and nothing behind them.
    pub events: [Option<Event>; ROOM],
    pub count: usize,
    pub reader: Reader,
    pub taken: usize,
    // Why the state was refused, if it was.
    pub refusal: Option<Refusal>,
}

// Feeds a piece again and again from where the last call stopped, until it is used up or every place is taken.
pub fn use_up(reader: Reader, piece: &[u8]) -> Passed
    ensures { passed_as result ≡ passed_for (passing room reader piece.now) }
{
    let mut events = [None; ROOM];
    let mut reader = reader;
    let mut taken = 0;
    for count in 0..ROOM {
        let fed = reader.feed(&piece[taken..]);
        reader = fed.reader;
        taken += fed.taken;
        match fed.heard {
            Ok(Some(event)) => events[count] = Some(event),
            Ok(None) => {
                return Passed {
                    events,
                    count,
                    reader,
                    taken,
                    refusal: None,
                };
            }
            Err(refusal) => {
                return Passed {
                    events,
                    count,
                    reader,
                    taken,
                    refusal: Some(refusal),
                };
            }
        }
    }
    Passed {
        events,
        count: ROOM,
        reader,
        taken,
        refusal: None,
    }
}
