// The forms that a command can have on the line: a row of places each.

// A sign or a hemisphere is a fixed character of one of several rows.
#[derive(Clone, Copy, Debug, PartialEq, Eq)]
pub enum Form {
    Tim,
    TimAsked,
    DifPlus,
    DifMinus,
    DifAsked,
    PosWestNorth,
    PosWestSouth,
    PosEastNorth,
    PosEastSouth,
    PosAsked,
}
