// The rows of a log's two listings: its telegrams, block by block, and its blocks verified.
ghost use Rattle.std.specs.Prelude.{◌≡◌, ◌++◌, ◌+◌, ◌≤◌, length};
ghost use Rattle.refusals.specs.Refusals.{done};
ghost use Rattle.lent_buffer.specs.Laying.{laid};
ghost use Rattle.listing_rules.specs.LogRows.{log_header, slot_row, telegram_row, block_row, verify_header, block_columns, good_row, bad_row, tail_row, bad_count};
ghost use Rattle.listing.specs.Texts.{Room, most_place};
ghost use Rattle.refusals.specs.Numbers.{outcome};

use super::lay;
use super::rows::{end_with_record, refused_row};
use super::text::Text;
use record::Record;
use record::rule::check;
use refusals::Refusal;

// A block's number and the offset of its first byte.
fn block_columns(text: &mut Text, block: u64, offset: u64)
    requires { Room text.old most_place }
    ensures said { text.new ≡ text.old ++ block_columns block offset }
    ensures few { length text.new ≤ length text.old + most_place }
{
    text.number_column(block);
    text.number_column(offset);
}

// The first line of the telegrams' listing; 13 for a buffer that is too short.
pub fn header(out: &mut [u8]) -> Result<usize, Refusal>
    ensures { laid (done log_header) out.old ≡ (outcome result, out.new) }
{
    lay(b"block;slot;kind;date;time;weekday;status\n", out)
}

// The row of the telegram in a slot. A record that no telegram could carry has no row: 5 to 8; then 13 for a buffer that is too short.
pub fn slot_row(block: u64, slot: u8, rec: Record, out: &mut [u8]) -> Result<usize, Refusal>
    ensures { laid (telegram_row block slot rec) out.old ≡ (outcome result, out.new) }
{
    check(rec)?;
    let mut text = Text::new();
    text.number_column(block);
    text.number_column(slot as u64);
    end_with_record(&mut text, rec, out)
}

// The row of a block that is not read, with the number that refuses it; 13 for a buffer that is too short.
pub fn block_row(block: u64, number: u8, out: &mut [u8]) -> Result<usize, Refusal>
    ensures { laid (done (block_row block number)) out.old ≡ (outcome result, out.new) }
{
    refused_row(block, number, out)
}

// The first line of the blocks' listing; 13 for a buffer that is too short.
pub fn verify_header(out: &mut [u8]) -> Result<usize, Refusal>
    ensures { laid (done verify_header) out.old ≡ (outcome result, out.new) }
{
    lay(b"block;offset;state;telegrams\n", out)
}

// The row of a good block, with the number of its telegrams; 13 for a buffer that is too short.
pub fn good_row(block: u64, offset: u64, telegrams: u8, out: &mut [u8]) -> Result<usize, Refusal>
    ensures { laid (done (good_row block offset telegrams)) out.old ≡ (outcome result, out.new) }
{
    let mut text = Text::new();
    block_columns(&mut text, block, offset);
    text.end_row(b"good;", telegrams as u64, out)
}

// The row of a bad block; 13 for a buffer that is too short.
pub fn bad_row(block: u64, offset: u64, out: &mut [u8]) -> Result<usize, Refusal>
    ensures { laid (done (bad_row block offset)) out.old ≡ (outcome result, out.new) }
{
    let mut text = Text::new();
    block_columns(&mut text, block, offset);
    text.append(b"bad;-\n");
    text.lay(out)
}

// The row of bytes that make no whole block, with the number that refuses them; 13 for a buffer that is too short.
pub fn tail_row(block: u64, offset: u64, number: u8, out: &mut [u8]) -> Result<usize, Refusal>
    ensures { laid (done (tail_row block offset number)) out.old ≡ (outcome result, out.new) }
{
    let mut text = Text::new();
    block_columns(&mut text, block, offset);
    text.end_row(b"refused ", number as u64, out)
}

// The last line of the blocks' listing: how many are bad; 13 for a buffer that is too short.
pub fn bad_line(bad: u64, out: &mut [u8]) -> Result<usize, Refusal>
    ensures { laid (done (bad_count bad)) out.old ≡ (outcome result, out.new) }
{
    let mut text = Text::new();
    text.end_row(b"bad ", bad, out)
}
