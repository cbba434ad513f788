// A row in the making.
ghost use Rattle.std.specs.Prelude.{◌≡◌, cond, [], ◌∷◌, ◌++◌, ◌+◌, ◌≤◌, length};
ghost use Rattle.refusals.specs.Refusals.{done};
ghost use Rattle.lent_buffer.specs.Laying.{laid};
ghost use Rattle.ascii.specs.Ascii.{ascii};
ghost use Rattle.refusals.specs.Numbers.{outcome};
ghost use Rattle.listing_rules.specs.Decimals.{digit, two, four, decimal};
ghost use Rattle.listing.specs.Texts.{Room, most_digits, most_column};

use super::lay;
use refusals::Refusal;
use std::marker::Model;

// A text has room for so many bytes: for two numbers, each with its semicolon, and for all that a record says. No other row has more.
const TEXT_ROOM: usize = 100;

// The bytes that stand so far. Functions are lent a text and do not hand it on, because a copy of bytes that were just written is slow.
#[derive(Drop)]
pub(crate) struct Text {
    bytes: [u8; TEXT_ROOM],
    len: usize,
}

impl Model for Text {
    ghost use Rattle.std.specs.Prelude.{List, ℕ, ◌≤◌, take};
    ghost use Rattle.listing.specs.declared.text.TheConstants.{TEXT_ROOM};

    ghost Value = { List ℕ };

    ghost view = { λ text. take text.len text.bytes };

    ghost invariant = { λ text. text.len ≤ TEXT_ROOM };
}

// The character of a number's last digit.
pub(crate) fn digit(n: u64) -> u8
    ensures { result ≡ digit n }
{
    b'0' + (n % 10) as u8
}

impl Text {
    // Nothing yet.
    pub(crate) fn new() -> Text
        ensures { result ≡ [] }
    {
        Text {
            bytes: [0; TEXT_ROOM],
            len: 0,
        }
    }

    // One byte more.
    pub(crate) fn push(&mut self, byte: u8)
        requires { Room self.old 1 }
        ensures { self.new ≡ self.old ++ byte ∷ [] }
    {
        self.bytes[self.len] = byte;
        self.len += 1;
    }

    // The bytes of a word, one behind another.
    pub(crate) fn append(&mut self, word: &[u8])
        requires { Room self.old (length word.now) }
        ensures { self.new ≡ self.old ++ word.now }
    {
        let end = self.len + word.len();
        self.bytes[self.len..end].copy_from_slice(word);
        self.len = end;
    }

    // A word that may be missing.
    pub(crate) fn append_if(&mut self, wanted: bool, word: &[u8])
        requires { Room self.old (length word.now) }
        ensures { self.new ≡ self.old ++ cond wanted word.now [] }
    {
        if wanted {
            self.append(word);
        }
    }

    // The last two digits, padded. They are put down at once, because that is faster than one by one.
    pub(crate) fn two(&mut self, n: u64)
        requires { Room self.old 2 }
        ensures { self.new ≡ self.old ++ two n }
    {
        self.append(&[digit(n / 10), digit(n)]);
    }

    // The last four digits, padded.
    pub(crate) fn four(&mut self, n: u64)
        requires { Room self.old 4 }
        ensures { self.new ≡ self.old ++ four n }
    {
        self.two(n / 100);
        self.two(n);
    }

    // All digits of a number, without padding: two in each call, so that the calls are few.
    pub(crate) fn decimal(&mut self, n: u64)
        requires { Room self.old most_digits }
        ensures said { self.new ≡ self.old ++ decimal n }
        ensures few { length self.new ≤ length self.old + most_digits }
    {
        if n < 10 {
            self.push(digit(n));
        } else if n < 100 {
            self.two(n);
        } else {
            self.decimal(n / 100);
            self.two(n);
        }
    }

    // A number, and the semicolon behind it.
    pub(crate) fn number_column(&mut self, n: u64)
        requires { Room self.old most_column }
        ensures said { self.new ≡ self.old ++ decimal n ++ ascii ";" }
        ensures few { length self.new ≤ length self.old + most_column }
    {
        self.decimal(n);
        self.push(b';');
    }

    // The end of a row, a word and a number; then all of it is laid.
    pub(crate) fn end_row(&mut self, word: &[u8], n: u64, out: &mut [u8]) -> Result<usize, Refusal>
        requires { Room self.old (length word.now + most_column) }
        ensures { laid (done (self.old ++ word.now ++ decimal n ++ ascii "\n")) out.old ≡ (outcome result, out.new) }
    {
        self.append(word);
        self.decimal(n);
        self.push(b'\n');
        self.lay(out)
    }

    // Lays the bytes at the front of the buffer, if there is room for them.
    pub(crate) fn lay(&self, out: &mut [u8]) -> Result<usize, Refusal>
        ensures { laid (done self.now) out.old ≡ (outcome result, out.new) }
    {
        lay(&self.bytes[..self.len], out)
    }
}
