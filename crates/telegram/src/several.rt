// Several telegrams, one behind another, in one lent buffer. A list of any length is written by one call for each record.
ghost use Rattle.std.specs.Prelude.{◌≡◌, [], ◌∷◌};
ghost use Rattle.telegram.specs.SeveralTelegrams.{none_yet, several_after, several_as};

use super::write::{Choice, write};
use record::Record;

// How many telegrams stand, how many bytes they take, and the number of the refusal that ended it, if any: every number ends it.
#[derive(Clone, Copy, Debug, PartialEq, Eq)]
pub struct Several {
    pub count: usize,
    pub used: usize,
    pub ending: Result<(), u8>,
}

impl Several {
    // Nothing written yet.
    pub fn start() -> Several
        ensures { several_as result ≡ none_yet }
    {
        Several {
            count: 0,
            used: 0,
            ending: Ok(()),
        }
    }

    // One more telegram, into the room after the last. Once one was refused, nothing more is written.
    pub fn add(self, rec: Record, choice: Choice, out: &mut [u8]) -> Several
        ensures { several_after choice (several_as self) (rec ∷ []) out.old ≡ (several_as result, out.new) }
    {
        if let Err(_) = self.ending {
            return self;
        }
        let start = self.used.min(out.len());
        match write(rec, choice, &mut out[start..]) {
            Ok(n) => Several {
                count: self.count.wrapping_add(1),
                used: self.used + n,
                ending: Ok(()),
            },
            Err(refusal) => Several {
                ending: Err(refusal.number()),
                ..self
            },
        }
    }
}
