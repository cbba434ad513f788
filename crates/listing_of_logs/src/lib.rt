// A log, listed: the rows of one block laid into a lent buffer.
#![tactic(auto)]

ghost use Rattle.std.specs.Prelude.{true, ◌≡◌, ◌≤◌, ◌<◌, length, take};
ghost use Rattle.refusals.specs.Refusals.{done};
ghost use Rattle.lent_buffer.specs.Laying.{laid};
ghost use Rattle.telegram_rules.specs.Reading.{read_of};
ghost use Rattle.log_rules.specs.Good.{telegram_in, telegrams_of, is_good};
ghost use Rattle.refusals.specs.Numbers.{outcome};
ghost use Rattle.listing_of_logs.specs.LogPages.{row_of, rows_from, block_rows, offset_of, verified_row, page_room};

use delivery_log::block::is_good;
use delivery_log::{BLOCK_SIZE, COUNT_PLACE, SLOT_SIZE, SLOTS};
use listing::log_rows::{bad_row, block_row, good_row, slot_row};
use listing::{LONGEST_LOG_ROW, lay};
use record::Record;
use refusals::Refusal;
use telegram::read::read;

// Room for the rows of any block.
pub const PAGE: usize = SLOTS * LONGEST_LOG_ROW;

// How many blocks there are whose offsets are numbers of 64 bits.
const BLOCKS: u64 = 1 << 55;

// Whether a block is good, and its row.
#[derive(Clone, Copy, Debug, PartialEq, Eq)]
pub struct VerifiedRow {
    pub good: bool,
    pub row: Result<usize, Refusal>,
}

// The record of the telegram in a slot.
fn read_slot(slot: &[u8]) -> Result<Record, Refusal>
    requires { 0 < length slot.now }
    ensures { outcome result ≡ read_of true (telegram_in slot.now) }
{
    let size = slot[0] as usize;
    let end = (size + 1).min(slot.len());
    read(&slot[1..end], true)
}

// The row of the telegram in a slot. One that does not read has none, but its own number; then 13 for a buffer that is too short.
fn lay_row(number: u64, at: u8, slot: &[u8], out: &mut [u8]) -> Result<usize, Refusal>
    requires { 0 < length slot.now }
    ensures { laid (row_of number at (telegram_in slot.now)) out.old ≡ (outcome result, out.new) }
{
    slot_row(number, at, read_slot(slot)?, out)
}

// The rows of a good block's telegrams, one behind another in a page, which has room for all.
fn fill(number: u64, block: &[u8], page: &mut [u8]) -> usize
    requires { (is_good block.now ≡ true) × (length page.old ≡ page_room) }
    ensures { (result ≤ length page.new) × (take result page.new ≡ rows_from number 0 (telegrams_of block.now)) }
{
    let count = block[COUNT_PLACE] as usize;
    let mut used: usize = 0;
    for (at, slot) in block.chunks_exact(SLOT_SIZE).take(count).enumerate() {
        match lay_row(number, at as u8, slot, &mut page[used..]) {
            Ok(n) => used += n,
            Err(_) => return used,
        }
    }
    used
}

// The rows of a block: one for each telegram of a good block; one with 20 for a bad block. 13 for a buffer that is too short.
pub fn rows_of(number: u64, block: &[u8], out: &mut [u8]) -> Result<usize, Refusal>
    ensures { laid (done (block_rows number block.now)) out.old ≡ (outcome result, out.new) }
{
    if !is_good(block) {
        return block_row(number, Refusal::BlockBad.number(), out);
    }
    let mut page = [0u8; PAGE];
    let used = fill(number, block, &mut page);
    lay(&page[..used], out)
}

// Where a block begins in its file.
pub fn offset_of(number: u64) -> u64
    ensures { result ≡ offset_of number }
{
    number % BLOCKS * BLOCK_SIZE as u64
}

// The row of a block that is verified, and whether the block is good. 13 for a buffer that is too short.
pub fn verified_row(number: u64, block: &[u8], out: &mut [u8]) -> VerifiedRow
    ensures { (result.good ≡ is_good block.now) × (laid (done (verified_row number block.now)) out.old ≡ (outcome result.row, out.new)) }
{
    let offset = offset_of(number);
    if !is_good(block) {
        return VerifiedRow {
            good: false,
            row: bad_row(number, offset, out),
        };
    }
    VerifiedRow {
        good: true,
        row: good_row(number, offset, block[COUNT_PLACE], out),
    }
}
