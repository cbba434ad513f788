// Adding a telegram to the log.
ghost use Rattle.std.specs.Prelude.{true, ◌∷◌, ◌++◌, ◌≡◌, suc, ◌<◌, length, take, drop};
ghost use Rattle.refusals.specs.Refusals.{done};
ghost use Rattle.log_rules.specs.Block.{slots, check_place, block_size, sealed};
ghost use Rattle.log_rules.specs.Good.{count_in, reads_well, is_good};
ghost use Rattle.log_rules.specs.Add.{place_at, place_in, entered, region_after, add_of};
ghost use Rattle.refusals.specs.Numbers.{outcome};
ghost use Rattle.log_rules.specs.Tests.{or_else, place_with};

use super::block::is_good;
use super::check::check_of;
use super::{BLOCK_SIZE, CHECK_PLACE, COUNT_PLACE, Place, SLOT_SIZE, SLOTS};
use refusals::Refusal;
use telegram::read::read;

// The place found so far, if any, with one block more: what was found before a used slot is a gap.
fn place_with(found: Result<Place, Refusal>, number: usize, block: &[u8]) -> Result<Place, Refusal>
    ensures { outcome result ≡ place_with (outcome found) number block.now }
{
    if !is_good(block) {
        return found;
    }
    let count = block[COUNT_PLACE] as usize;
    if count == 0 {
        return or_first(found, number);
    }
    if count < SLOTS {
        return Ok(Place {
            block: number,
            slot: count,
        });
    }
    Err(Refusal::NoFreeSlot)
}

// The place found so far, else the first slot of an empty block.
fn or_first(found: Result<Place, Refusal>, number: usize) -> Result<Place, Refusal>
    ensures { outcome result ≡ or_else (outcome found) (done (place_at number 0)) }
{
    found.or(Ok(Place {
        block: number,
        slot: 0,
    }))
}

// The first free slot behind the last used one: 19, then 21.
fn find_place(region: &[u8]) -> Result<Place, Refusal>
    ensures { outcome result ≡ place_in region.now }
{
    if region.len() % BLOCK_SIZE != 0 {
        return Err(Refusal::NotWholeBlocks);
    }
    let mut found = Err(Refusal::NoFreeSlot);
    for (at, block) in region.chunks_exact(BLOCK_SIZE).enumerate() {
        found = place_with(found, at, block);
    }
    found
}

// Lays the length byte and the telegram at the front of a slot.
fn lay(slot: &mut [u8], telegram: &[u8])
    requires { (length telegram.now < length slot.old) × (length telegram.now < 256) }
    ensures { slot.new ≡ length telegram.now ∷ telegram.now ++ drop (suc (length telegram.now)) slot.old }
{
    let length = telegram.len();
    slot[0] = length as u8;
    slot[1..=length].copy_from_slice(telegram);
}

// Stores the check of the bytes before it.
fn seal(block: &mut [u8])
    requires { length block.old ≡ block_size }
    ensures { block.new ≡ sealed (take check_place block.old) }
{
    let check = check_of(&block[..CHECK_PLACE]);
    block[CHECK_PLACE..].copy_from_slice(&check.to_le_bytes());
}

// Enters a telegram that reads well into the first free slot of a good block: its slot, the count and the check.
fn enter(block: &mut [u8], slot: usize, telegram: &[u8])
    requires { (is_good block.old ≡ true) × (slot ≡ count_in block.old) × (slot < slots) × (reads_well telegram.now ≡ true) }
    ensures { block.new ≡ entered block.old telegram.now }
{
    let start = SLOT_SIZE * slot;
    lay(&mut block[start..], telegram);
    block[COUNT_PLACE] = slot as u8 + 1;
    seal(block);
}

// Adds a telegram that reads well.
fn add_good(region: &mut [u8], telegram: &[u8]) -> Result<Place, Refusal>
    requires { reads_well telegram.now ≡ true }
    ensures { (outcome result ≡ place_in region.old) × (region.new ≡ region_after (place_in region.old) region.old telegram.now) }
{
    let place = find_place(region)?;
    let start = BLOCK_SIZE * place.block;
    let end = start + BLOCK_SIZE;
    enter(&mut region[start..end], place.slot, telegram);
    Ok(place)
}

// Adds a telegram with control characters: its own refusal, then 19, then 21. A refused add leaves every byte of the region as it was.
pub fn add(region: &mut [u8], telegram: &[u8]) -> Result<Place, Refusal>
    ensures { add_of region.old telegram.now ≡ (outcome result, region.new) }
{
    read(telegram, true)?;
    add_good(region, telegram)
}
