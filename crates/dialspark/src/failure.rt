// What ends a run before its end, and how it is told.
use super::{help, words};
use command_line::Fault;
use listing_output::Unwritten;
use std::io::Write;
use std::rt::Env;
use std::{fmt, io};

// Of those that the system refused there is its reason.
#[derive(Clone, Copy)]
pub(crate) enum Failure {
    // The words of the command line do not fit together.
    Words(Fault),
    // The word at this place names no file that can be opened.
    Unopened(usize, io::Error),
    CaptureUnread(io::Error),
    LogUnread(io::Error),
    ListingUnwritten(Unwritten),
    TextUnwritten(io::Error),
}

impl From<Fault> for Failure {
    fn from(fault: Fault) -> Failure {
        Failure::Words(fault)
    }
}

impl From<Unwritten> for Failure {
    fn from(why: Unwritten) -> Failure {
        Failure::ListingUnwritten(why)
    }
}

// The system's words for a failure.
#[derive(Drop)]
struct Reason(io::Error);

// No reason is longer.
const REASON_ROOM: usize = 256;

impl fmt::Display for Reason {
    // An error's text has its number behind the words.
    fn fmt<W: fmt::Write>(&self, f: &mut fmt::Formatter<W>) -> fmt::Result {
        let mut room = [0u8; REASON_ROOM];
        let mut rest: &mut [u8] = &mut room;
        let _ = write!(rest, "{}", self.0);
        let count = REASON_ROOM.saturating_sub(rest.len());
        let text = str::from_utf8(&room[..count]).unwrap_or("");
        match text.split_once(" (os error ") {
            Some((words, _)) => f.write_str(words),
            None => f.write_str(text),
        }
    }
}

impl Failure {
    // Words that do not fit, and a name that names no file, are told with the usage line.
    pub(crate) fn tell<E: Env, W: Write>(self, env: &E, to: &mut W) -> io::Result<()> {
        to.write_all(b"dialspark: ")?;
        match self {
            Failure::Words(fault) => {
                words::tell(env, fault, to)?;
                help::usage(to)
            }
            Failure::Unopened(place, why) => {
                words::print(env, place, to)?;
                writeln!(to, ": {}", Reason(why))?;
                help::usage(to)
            }
            Failure::CaptureUnread(why) => {
                writeln!(to, "the capture cannot be read: {}", Reason(why))
            }
            Failure::LogUnread(why) => writeln!(to, "the log cannot be read: {}", Reason(why)),
            Failure::ListingUnwritten(Unwritten::Failed(why)) => {
                writeln!(to, "the listing cannot be written: {}", Reason(why))
            }
            Failure::ListingUnwritten(Unwritten::Refused(_)) => {
                writeln!(to, "the listing was refused")
            }
            Failure::TextUnwritten(why) => {
                writeln!(to, "this text cannot be written: {}", Reason(why))
            }
        }
    }
}
