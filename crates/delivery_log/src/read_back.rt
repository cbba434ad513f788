// Reading back: a telegram's own bytes, by block and slot.
ghost use Rattle.std.specs.Prelude.{◌≡◌};
ghost use Rattle.log_rules.specs.ReadBack.{read_back_of};
ghost use Rattle.delivery_log.specs.Located.{located_in, StandsIn};
ghost use Rattle.log_rules.specs.Answers.{lent_as, lent_at, telegram_place};

use super::block::is_good;
use super::{BLOCK_SIZE, COUNT_PLACE, SLOT_SIZE};
use refusals::Refusal;

// Where a telegram's bytes begin in the region, and how many they are.
fn locate(region: &[u8], block: usize, slot: usize) -> Result<(usize, usize), Refusal>
    ensures { (located_in region.now result ≡ read_back_of region.now block slot) × StandsIn region.now block slot result }
{
    let length = region.len();
    if length % BLOCK_SIZE != 0 {
        return Err(Refusal::NotWholeBlocks);
    }
    if block >= length / BLOCK_SIZE {
        return Err(Refusal::NoSuchTelegram);
    }
    let start = BLOCK_SIZE * block;
    let end = start + BLOCK_SIZE;
    if !is_good(&region[start..end]) {
        return Err(Refusal::BlockBad);
    }
    if slot >= region[start + COUNT_PLACE] as usize {
        return Err(Refusal::NoSuchTelegram);
    }
    let at = start + SLOT_SIZE * slot;
    Ok((at + 1, region[at] as usize))
}

// Hands out the telegram's own bytes: a part of the region and no copy.
pub fn read_back(region: &[u8], block: usize, slot: usize) -> Result<&[u8], Refusal>
    ensures { lent_as result ≡ lent_at region.entry (telegram_place block slot) (read_back_of region.now block slot) }
{
    let (start, size) = locate(region, block, slot)?;
    Ok(&region[start..start + size])
}
