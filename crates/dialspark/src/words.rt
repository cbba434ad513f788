// The words of the command line, as the system hands them out. What they ask for is decided by `command_line`.
ghost use Rattle.std.specs.Prelude.{◌≤◌, length, IfSome};

use super::failure::Failure;
use command_line::{Asked, Fault, LONGEST_NAME};
use std::env::FillError;
use std::io::Write;
use std::rt::{Env, Files};
use std::{fs, io, str};

// More than a name may have.
const ROOM: usize = LONGEST_NAME + 1;

// The system's number for bytes that are no text: a file's name is UTF-8.
const NO_TEXT: i32 = 84;

// The word at a place, as far as the buffer holds it; nothing behind the last word.
fn fetch<E: Env>(env: &E, place: usize, word: &mut [u8]) -> Option<usize>
    ensures { IfSome result (λ count. count ≤ length word.new) }
{
    match env.arg(place, word) {
        Ok(count) => Some(count),
        Err(FillError::TooLong) => Some(word.len()),
        Err(FillError::NotPresent) => None,
    }
}

// The first word is the program's own name.
pub(crate) fn read<E: Env>(env: &E) -> Result<Asked, Fault> {
    let mut word = [0u8; ROOM];
    let mut asked = Ok(command_line::no_word());
    for place in 1..usize::MAX {
        let Some(count) = fetch(env, place, &mut word) else {
            break;
        };
        asked = command_line::with_word(asked, place, &word[..count]);
    }
    asked
}

// The file that the word at a place names.
pub(crate) fn open<R: Env + Files>(rt: &R, place: usize) -> Result<R::File, Failure> {
    let mut word = [0u8; ROOM];
    let count = fetch(rt, place, &mut word).unwrap_or(0);
    let Ok(name) = str::from_utf8(&word[..count]) else {
        let why = io::Error::from_raw_os_error(NO_TEXT);
        return Err(Failure::Unopened(place, why));
    };
    fs::open(rt, name).map_err(|why| Failure::Unopened(place, why))
}

// Its bytes need not be text.
pub(crate) fn print<E: Env, W: Write>(env: &E, place: usize, to: &mut W) -> io::Result<()> {
    let mut word = [0u8; ROOM];
    let count = fetch(env, place, &mut word).unwrap_or(0);
    to.write_all(&word[..count])
}

// What is wrong with the words.
pub(crate) fn tell<E: Env, W: Write>(env: &E, fault: Fault, to: &mut W) -> io::Result<()> {
    match fault {
        Fault::NoSuchOption(place) => {
            write!(to, "no such option: ")?;
            print(env, place, to)?;
            writeln!(to)
        }
        Fault::LongName => writeln!(to, "the name of a file has at most {LONGEST_NAME} bytes"),
        Fault::SecondListing => writeln!(to, "one of --exchanged, --verify and --log, once"),
        Fault::SecondFile => writeln!(to, "one file at a time"),
    }
}
