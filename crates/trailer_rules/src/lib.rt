// The trailer, which is the last two bytes of what stands between STX and ETX, and the order of its CR and LF. No code.
#![tactic(auto)]

// A setting of the line, which its reader and its writer have to share: as the tables print it, or exchanged.
#[derive(Clone, Copy, Debug, PartialEq, Eq)]
pub enum Order {
    AsPrinted,
    Exchanged,
}
