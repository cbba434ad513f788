// How outcomes are printed.
use delivery_log::verify::Damage;
use refusals::Refusal;
use std::io;

// The rest of a line, which says that an operation was refused.
pub(crate) fn refused(rt: &impl Print, refusal: Refusal) -> io::Result<()> {
    print!(rt; "refused {}", refusal.number())
}

// The same of a region, with the block where one is bad.
pub(crate) fn damaged(rt: &impl Print, damage: Damage) -> io::Result<()> {
    refused(rt, damage.into())?;
    match damage {
        Damage::NotWholeBlocks => Ok(()),
        Damage::BadBlock(block) => print!(rt; " at {block}"),
    }
}

// Two digits for each byte.
pub(crate) fn hex(rt: &impl Print, bytes: &[u8]) -> io::Result<()> {
    for byte in bytes {
        print!(rt; "{byte:02x}")?;
    }
    Ok(())
}
