// Whether a block is good: the test of one block, part by part.
ghost use Rattle.std.specs.Prelude.{◌≡◌, ◌*◌, ◌≤◌, length};
ghost use Rattle.log_rules.specs.Block.{slot_size, block_size};
ghost use Rattle.log_rules.specs.Good.{reads_well, is_good};
ghost use Rattle.log_rules.specs.Tests.{all_zero, slot_fits, slots_fit, check_fits};

use super::check::check_of;
use super::{BLOCK_SIZE, CHECK_PLACE, COUNT_PLACE, SLOT_SIZE, SLOTS};

fn is_zero(bytes: &[u8]) -> bool
    ensures { result ≡ all_zero bytes.now }
{
    for byte in bytes {
        if *byte != 0 {
            return false;
        }
    }
    true
}

fn reads_well(telegram: &[u8]) -> bool
    ensures { result ≡ reads_well telegram.now }
{
    telegram::read::read(telegram, true).is_ok()
}

// A used slot: a length byte, a telegram that reads well, zeros.
fn slot_fits(slot: &[u8]) -> bool
    ensures { result ≡ slot_fits slot.now }
{
    if slot.len() != SLOT_SIZE {
        return false;
    }
    let length = slot[0] as usize;
    if length >= SLOT_SIZE {
        return false;
    }
    let end = length + 1;
    if !reads_well(&slot[1..end]) {
        return false;
    }
    is_zero(&slot[end..SLOT_SIZE])
}

// The first slots of a block, as many as it uses.
fn slots_fit(block: &[u8], count: usize) -> bool
    requires { slot_size * count ≤ length block.now }
    ensures { result ≡ slots_fit count block.now }
{
    block.chunks_exact(SLOT_SIZE).take(count).all(slot_fits)
}

// Whether the stored check is the one of the bytes before it.
fn check_fits(block: &[u8]) -> bool
    requires { length block.now ≡ block_size }
    ensures { result ≡ check_fits block.now }
{
    let stored = u16::from_le_bytes([block[CHECK_PLACE], block[CHECK_PLACE + 1]]);
    stored == check_of(&block[..CHECK_PLACE])
}

// Whether these bytes are the block that its telegrams make: at most 15, each accepted with control characters.
pub fn is_good(block: &[u8]) -> bool
    ensures { result ≡ is_good block.now }
{
    if block.len() != BLOCK_SIZE {
        return false;
    }
    let count = block[COUNT_PLACE] as usize;
    if count > SLOTS {
        return false;
    }
    let used = SLOT_SIZE * count;
    if !is_zero(&block[used..COUNT_PLACE]) {
        return false;
    }
    if !is_zero(&block[COUNT_PLACE + 1..CHECK_PLACE]) {
        return false;
    }
    if !check_fits(block) {
        return false;
    }
    slots_fit(block, count)
}
