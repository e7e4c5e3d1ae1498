use std::alloc::{AllocError, Global};

/// The bytes of the block that is taken: more than any table of a machine of a campaign.
const BLOCK: usize = 4_194_304;

/// Asks that memory stays with the program. The C library hands what is free at the end of its heap back to the system once that is
/// twice the largest block that was ever given back. A machine is larger than twice its largest table, so each one that was made, run
/// and dropped would be fetched from the system anew, page by page. So one larger block is taken and given back, and never touched.
pub fn keep_memory(alloc: Global) -> Result<(), AllocError> {
    let block: Vec<u8> = Vec::with_capacity(alloc, BLOCK)?;
    drop(block);
    Ok(())
}
