// Local seconds and UTC seconds, each a count of its own from 1 January 1980, 00:00, and the season shift between them.
// Nothing here knows a record, so that the rule for a record may ask for the shift.

#[derive(Clone, Copy, Debug, PartialEq, Eq)]
pub struct LocalSeconds(pub u32);

#[derive(Clone, Copy, Debug, PartialEq, Eq)]
pub struct UtcSeconds(pub u32);

// A count of seconds is one or the other.
#[derive(Clone, Copy, Debug, PartialEq, Eq)]
pub enum Count {
    Local(LocalSeconds),
    Utc(UtcSeconds),
}
