// Verifying a region: the first bad block, if there is one.
ghost use Rattle.std.specs.Prelude.{◌≡◌};
ghost use Rattle.log_rules.specs.Verify.{verified_as, verify_of};

use super::BLOCK_SIZE;
use super::block::is_good;
pub use log_rules::Damage;

pub fn verify(region: &[u8]) -> Result<(), Damage>
    ensures { verified_as result ≡ verify_of region.now }
{
    if region.len() % BLOCK_SIZE != 0 {
        return Err(Damage::NotWholeBlocks);
    }
    for (at, block) in region.chunks_exact(BLOCK_SIZE).enumerate() {
        if !is_good(block) {
            return Err(Damage::BadBlock(at));
        }
    }
    Ok(())
}
