// Stray bytes at the front of a piece, skipped to the next STX: block after block, and then byte after byte.
ghost use Rattle.std.specs.Prelude.{◌≡◌, ◌+◌, drop};
ghost use Rattle.line_rules.specs.Runs.{begins_with_stx, has_stx, stray_run};

use telegram::STX;

// So many bytes are looked at together.
const BLOCK: usize = 64;

// Whether a telegram begins with the first byte.
pub(crate) fn begins_with_stx(piece: &[u8]) -> bool
    ensures { result ≡ begins_with_stx piece.now }
{
    matches!(piece, [STX, ..])
}

// Whether an STX stands among these bytes. None of them ends the loop, so that the compiler compares many at once.
fn has_stx(bytes: &[u8]) -> bool
    ensures { result ≡ has_stx bytes.now }
{
    let mut found = false;
    for byte in bytes {
        found |= *byte == STX;
    }
    found
}

// How many bytes stand in the blocks before the first that has an STX, or that the piece does not fill.
fn stray_blocks(piece: &[u8]) -> usize
    ensures { result + stray_run (drop result piece.now) ≡ stray_run piece.now }
{
    let mut at = 0;
    while BLOCK <= piece.len() - at {
        let end = at + BLOCK;
        if has_stx(&piece[at..end]) {
            return at;
        }
        at = end;
    }
    at
}

// How many bytes stand before the first STX, looked at one by one.
fn stray_bytes(piece: &[u8]) -> usize
    ensures { result ≡ stray_run piece.now }
{
    piece
        .iter()
        .position(|byte| *byte == STX)
        .unwrap_or(piece.len())
}

// How many bytes stand before the first STX.
pub(crate) fn stray_run(piece: &[u8]) -> usize
    ensures { result ≡ stray_run piece.now }
{
    let skipped = stray_blocks(piece);
    skipped + stray_bytes(&piece[skipped..])
}
