// What the program says of itself: the usage line, what each word does, and the version.
use super::failure::Failure;
use std::io;
use std::io::Write;

// The version stands here and nowhere else.
const VERSION: &str = "dialspark 4.7.1\n";

const USAGE: &str =
    "usage: dialspark [--help | --version] [--exchanged | --verify | --log] [FILE]\n";

const WORDS: &str = "Lists FILE, or standard input, to standard output.
  FILE           a line as it was captured: a row for each telegram, then how many bytes are stray
  --exchanged    the line is of a board that exchanges CR and LF
  --verify       FILE is a log: a row for each block, good or bad, then how many are bad
  --log          FILE is a log: a row for each telegram of the good blocks
  --help, -h     prints this text
  --version      prints the program's name and version
A file named -h, or whose name begins with --, is given as ./NAME. What goes wrong is told on standard error.
";

fn print<W: Write>(to: &mut W, text: &str) -> Result<(), Failure> {
    to.write_all(text.as_bytes())
        .map_err(Failure::TextUnwritten)
}

// With what went wrong.
pub(crate) fn usage<W: Write>(to: &mut W) -> io::Result<()> {
    to.write_all(USAGE.as_bytes())
}

pub(crate) fn help<W: Write>(to: &mut W) -> Result<(), Failure> {
    print(to, USAGE)?;
    print(to, WORDS)
}

pub(crate) fn version<W: Write>(to: &mut W) -> Result<(), Failure> {
    print(to, VERSION)
}
