// The refusals of documents 01 and 02. Every crate refuses with one of these and with nothing else.
#![tactic(auto)]

ghost use Rattle.std.specs.Prelude.{◌≡◌, ◌++◌, codes, decimal, Some};
ghost use Rattle.refusals.specs.Numbers.{number, number_if};
ghost use Rattle.refusals.specs.Refusals.{lower};

use std::error::Error;
use std::fmt;

// Why something was refused. Each refusal has the number that the documents give it.
#[derive(Clone, Copy, Debug, PartialEq, Eq)]
pub enum Refusal {
    Length = 1,
    Frame = 2,
    FixedCharacter = 3,
    Digit = 4,
    StatusOrWeekday = 5,
    OutOfRange = 6,
    NoSuchDay = 7,
    WeekdayDisagrees = 8,
    StxInside = 9,
    TooLong = 10,
    EndedInside = 11,
    OutsideCalendar = 12,
    BufferShort = 13,
    NoDate = 14,
    StateIllFormed = 15,
    NotOffered = 16,
    DayOfYearDisagrees = 17,
    NoRequest = 18,
    NotWholeBlocks = 19,
    BlockBad = 20,
    NoFreeSlot = 21,
    UnknownCommand = 22,
    NoSuchTelegram = 27,
}

impl Refusal {
    // The documents' number.
    pub fn number(self) -> u8
        ensures { result ≡ number self }
    {
        self as u8
    }
}

impl fmt::Display for Refusal {
    ghost output = { λ refusal. Some (codes "refused with " ++ decimal (number refusal)) };

    fn fmt<W: fmt::Write>(&self, f: &mut fmt::Formatter<W>) -> fmt::Result {
        write!(f, "refused with {}", self.number())
    }
}

impl Error for Refusal {}

// The lower of two refusals, where there are any. A scan asks for it at each byte that has a fault, and a call would take longer than the
// tests.
#[inline(always)]
pub fn lowest(here: Option<Refusal>, before: Option<Refusal>) -> Option<Refusal>
    ensures { number_if result ≡ lower (number_if here) (number_if before) }
{
    match (here, before) {
        (None, _) => before,
        (_, None) => here,
        (Some(this), Some(other)) if this.number() < other.number() => here,
        (Some(_), Some(_)) => before,
    }
}

// The lower of two numbers of refusals, where 0 is none.
pub fn lower(here: u8, before: u8) -> u8
    ensures { result ≡ lower here before }
{
    if here == 0 {
        return before;
    }
    if before == 0 {
        return here;
    }
    here.min(before)
}
