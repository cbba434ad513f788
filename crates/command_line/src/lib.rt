// The words of the lister's command line: what they ask for. They are handed in one by one, as the system hands them out.
#![tactic(auto)]

ghost use Rattle.std.specs.Prelude.{◌≡◌};
ghost use Rattle.command_line.specs.Words.{word_of};
ghost use Rattle.command_line.specs.Asking.{no_word, with_listing, with_name, with_meaning, with_word};

// What is to be listed: a captured line, one whose trailers are exchanged, the telegrams of a log, or its blocks.
#[derive(Clone, Copy, PartialEq, Eq)]
pub enum Wanted {
    Line,
    Exchanged,
    Telegrams,
    Blocks,
}

// Where it stands: on standard input, or in the file that the word at a place names.
#[derive(Clone, Copy, PartialEq, Eq)]
pub enum Source {
    Input,
    File(usize),
}

// What is wrong with the words: the one at a place is no option; one is too long for the name of a file; or there is a second one that says
// what is listed, or that names a file.
#[derive(Clone, Copy)]
pub enum Fault {
    NoSuchOption(usize),
    LongName,
    SecondListing,
    SecondFile,
}

// What the words ask for, where none of them is wrong.
#[derive(Clone, Copy)]
pub enum Asked {
    Listing(Wanted, Source),
    Help,
    Version,
}

// What one word says.
#[derive(Clone, Copy)]
enum Word {
    Help,
    Version,
    Listing(Wanted),
    UnknownOption,
    LongName,
    Name,
}

// A path has at most so many bytes.
pub const LONGEST_NAME: usize = 4095;

// A word that begins with `--` is an option, and any other that is none of them names a file.
#[tactic(auto, unfolding(crate::specs::Words::word_of, crate::specs::Words::other_word, crate::specs::Words::is_option))]
fn word_of(word: &[u8]) -> Word
    ensures { result ≡ word_of word.now }
{
    if word == b"--help".as_slice() || word == b"-h".as_slice() {
        return Word::Help;
    }
    if word == b"--version".as_slice() {
        return Word::Version;
    }
    if word == b"--exchanged".as_slice() {
        return Word::Listing(Wanted::Exchanged);
    }
    if word == b"--verify".as_slice() {
        return Word::Listing(Wanted::Blocks);
    }
    if word == b"--log".as_slice() {
        return Word::Listing(Wanted::Telegrams);
    }
    if word.starts_with(b"--") {
        return Word::UnknownOption;
    }
    if word.len() > LONGEST_NAME {
        return Word::LongName;
    }
    Word::Name
}

// One word that says what is listed is enough.
fn with_listing(before: Wanted, source: Source, wanted: Wanted) -> Result<Asked, Fault>
    ensures { result ≡ with_listing before source wanted }
{
    if before != Wanted::Line {
        return Err(Fault::SecondListing);
    }
    Ok(Asked::Listing(wanted, source))
}

// One file at a time.
fn with_name(wanted: Wanted, before: Source, place: usize) -> Result<Asked, Fault>
    ensures { result ≡ with_name wanted before place }
{
    if before != Source::Input {
        return Err(Fault::SecondFile);
    }
    Ok(Asked::Listing(wanted, Source::File(place)))
}

// What is asked for before there is a word: a line on standard input.
pub fn no_word() -> Asked
    ensures { result ≡ no_word }
{
    Asked::Listing(Wanted::Line, Source::Input)
}

// What the words so far ask for, with one word more, which stands at a place; or what is wrong with them. Neither help, nor the version, nor
// what is wrong is changed by words behind it.
pub fn with_word(before: Result<Asked, Fault>, place: usize, word: &[u8]) -> Result<Asked, Fault>
    ensures { result ≡ with_word before place word.now }
{
    let Asked::Listing(wanted, source) = before? else {
        return before;
    };
    match word_of(word) {
        Word::Help => Ok(Asked::Help),
        Word::Version => Ok(Asked::Version),
        Word::Listing(other) => with_listing(wanted, source, other),
        Word::UnknownOption => Err(Fault::NoSuchOption(place)),
        Word::LongName => Err(Fault::LongName),
        Word::Name => with_name(wanted, source, place),
    }
}
