// Plain bytes at the front of a piece, which are held at once.
ghost use Rattle.std.specs.Prelude.{◌≡◌, ◌≤◌};
ghost use Rattle.std.proofs.Math.Seq.{paste};
ghost use Rattle.line_rules.specs.Line.{places, is_plain, all_plain};
ghost use Rattle.line_rules.specs.Runs.{roomy_run};

use super::PLACES;
use telegram::{ETX, STX};

// Whether a byte is held inside a telegram as it comes.
pub(crate) fn is_plain(byte: u8) -> bool
    ensures { result ≡ is_plain byte }
{
    byte != STX && byte != ETX
}

// Whether all of these bytes are held so. None of them ends the loop, so that the compiler looks at many at once.
pub(crate) fn is_all_plain(bytes: &[u8]) -> bool
    ensures { result ≡ all_plain bytes.now }
{
    let mut plain = true;
    for byte in bytes {
        plain &= is_plain(*byte);
    }
    plain
}

// How many plain bytes stand at the front of a piece, as far as there is room for them behind the first `len`. The room is found first,
// so that each byte is looked at against one bound.
pub(crate) fn roomy_run(len: usize, piece: &[u8]) -> usize
    ensures { result ≡ roomy_run len piece.now }
{
    let room = piece.len().min(PLACES.saturating_sub(len));
    piece[..room]
        .iter()
        .position(|byte| !is_plain(*byte))
        .unwrap_or(room)
}

// Bytes held behind others.
#[derive(Clone, Copy)]
pub struct Gathered {
    pub held: [u8; PLACES],
    // How many were added.
    pub added: usize,
}

// The same, and holds them there.
pub(crate) fn gather(held: [u8; PLACES], len: usize, piece: &[u8]) -> Gathered
    requires { len ≤ places }
    ensures added { result.added ≡ roomy_run len piece.now }
    ensures laid { result.held ≡ paste held len piece.now (roomy_run len piece.now) }
{
    let added = roomy_run(len, piece);
    let mut all = held;
    all[len..len + added].copy_from_slice(&piece[..added]);
    Gathered { held: all, added }
}
